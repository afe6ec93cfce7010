//! The text of a mark.
ghost use Rattle.std.specs.Prelude.{◌≡◌, ◌≢◌, ◌↔◌, ◌≤◌, ℕ, IfErr, IfNone, IfOk, IfSome, IsTrue, Some, length};
ghost use Rattle.host_calls.specs.ClockRange.{IsClockMinute};
ghost use Rattle.text_reader.specs.HexDigits.{digits_of};
ghost use Rattle.cron_session.specs.Mark.{BeginsMark, IsLongestStart, IsMarkDamage, IsMarkText, cron_mark_text};

use crate::mark_name;
use host_calls::{Damage, LAST_MINUTE};
use text_reader::digits_of;

// How many digits a mark has.
const DIGITS: usize = 8;

/// The text of the mark of a minute.
pub fn cron_mark_text(minute: u32) -> [u8; 9]
    ensures { result ≡ cron_mark_text minute }
{
    let [a, b, c, d, e, f, g, h] = digits_of(minute);
    [a, b, c, d, e, f, g, h, b'\n']
}

/// The minute of the mark with this text. A text that is no mark is damaged at the length of its longest start with which
/// the text of some mark starts too.
pub fn minute_in(bytes: &[u8]) -> Result<u32, Damage>
    ensures minute { IfOk result (IsMarkText bytes.now) }
    ensures damaged { IfErr result (IsMarkDamage (Some bytes.now)) }
{
    match minute_in_mark(bytes) {
        Some(minute) => Ok(minute),
        None => Err(Damage::at(mark_name(), bytes, longest_start(bytes))),
    }
}

// The minute of the mark with this text, if it is one.
fn minute_in_mark(bytes: &[u8]) -> Option<u32>
    ensures some { IfSome result (IsMarkText bytes.now) }
    ensures none { IfNone result ((minute : ℕ) → ¬ (IsMarkText bytes.now minute)) }
{
    let [a, b, c, d, e, f, g, h, b'\n'] = bytes else {
        return None;
    };
    minute_of_digits(&[*a, *b, *c, *d, *e, *f, *g, *h])
}

// The minute with these eight digits, if it is one.
fn minute_of_digits(digits: &[u8]) -> Option<u32>
    requires { length digits.now ≡ 8 }
    ensures some { IfSome result (λ minute. IsClockMinute minute × (digits.now ≡ digits_of minute)) }
    ensures none { IfNone result ((minute : ℕ) → IsClockMinute minute → digits.now ≢ digits_of minute) }
{
    let number = text_reader::read_hex(digits)?;
    if number > LAST_MINUTE as u64 {
        return None;
    }
    Some(number as u32)
}

// The length of the longest start of the bytes with which the text of some mark starts.
fn longest_start(bytes: &[u8]) -> usize
    ensures { IsLongestStart bytes.now result }
{
    for place in 0..bytes.len() {
        if !starts(&bytes[..place + 1]) {
            return place;
        }
    }
    bytes.len()
}

// Whether the text of some mark starts with the bytes.
fn starts(bytes: &[u8]) -> bool
    ensures { IsTrue result ↔ BeginsMark bytes.now }
{
    if bytes.len() <= DIGITS {
        start_digits(bytes)
    } else {
        minute_in_mark(bytes).is_some()
    }
}

// Whether the digits of some minute start with the bytes: these are no more than the first digits of the last minute.
fn start_digits(bytes: &[u8]) -> bool
    requires { length bytes.now ≤ 8 }
    ensures { IsTrue result ↔ BeginsMark bytes.now }
{
    match text_reader::read_hex(bytes) {
        Some(number) => number <= (LAST_MINUTE as u64) >> (4 * (DIGITS - bytes.len())),
        None => false,
    }
}
