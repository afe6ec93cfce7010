//! The parts of a time, one after another. Each function reads the prefix of a slice, and gives the
//! value and the rest.
ghost use Rattle.std.specs.Prelude.{◌≡◌, ◌≤◌, IfSome};
ghost use Rattle.text_reader.specs.ReadResult.{read_view};
ghost use Rattle.touch_time.specs.inside.Reader as Reader;

use crate::TouchTime;
use text_reader::read_two_digits;

/// A time and nothing after it.
#[tactic(auto, unfolding(crate::specs::inside::Reader::read_touch))]
pub(crate) fn read_touch(text: &[u8]) -> Option<TouchTime>
    ensures { result ≡ Reader.read_touch text.now }
{
    let (year, text) = read_year(text)?;
    let (month, text) = read_within(text, 1, 12)?;
    let (day, text) = read_within(text, 1, 31)?;
    let (hour, text) = read_within(text, 0, 23)?;
    let (minute, text) = read_within(text, 0, 59)?;
    if !is_seconds(text) {
        return None;
    }
    Some(TouchTime {
        year,
        month,
        day,
        hour,
        minute,
    })
}

// The length of the text says how its year is spelled, since no two forms have the same.
#[tactic(auto, unfolding(crate::specs::inside::Reader::read_year))]
fn read_year(text: &[u8]) -> Option<(Option<u16>, &[u8])>
    ensures { read_view result ≡ Reader.read_year text.now }
{
    match text.len() {
        8 | 11 => Some((None, text)),
        10 | 13 => read_short_year(text),
        12 | 15 => read_full_year(text),
        _ => None,
    }
}

#[tactic(auto, unfolding(crate::specs::inside::Reader::read_short_year))]
fn read_short_year(text: &[u8]) -> Option<(Option<u16>, &[u8])>
    ensures { read_view result ≡ Reader.read_short_year text.now }
{
    let (year, text) = read_within(text, 0, 99)?;
    let century = if year < 69 { 2000 } else { 1900 };
    Some((Some(century + u16::from(year)), text))
}

#[tactic(auto, unfolding(crate::specs::inside::Reader::read_full_year))]
fn read_full_year(text: &[u8]) -> Option<(Option<u16>, &[u8])>
    ensures { read_view result ≡ Reader.read_full_year text.now }
{
    let (century, text) = read_within(text, 0, 99)?;
    let (year, text) = read_within(text, 0, 99)?;
    Some((Some(u16::from(century) * 100 + u16::from(year)), text))
}

#[tactic(auto, unfolding(crate::specs::inside::Reader::read_within))]
fn read_within(text: &[u8], low: u8, high: u8) -> Option<(u8, &[u8])>
    ensures value { read_view result ≡ Reader.read_within low high text.now }
    ensures bound { IfSome result (λ read. read.0 ≤ 99) }
{
    let (number, rest) = read_two_digits(text)?;
    if number < low || number > high {
        return None;
    }
    Some((number, rest))
}

// No seconds, or a point and seconds.
#[tactic(auto, unfolding(crate::specs::inside::Reader::is_seconds))]
fn is_seconds(text: &[u8]) -> bool
    ensures { result ≡ Reader.is_seconds text.now }
{
    match text {
        [] => true,
        [b'.', rest @ ..] => matches!(read_within(rest, 0, 60), Some((_, []))),
        _ => false,
    }
}
