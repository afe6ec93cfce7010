//! The minute that the time of a submission means.
ghost use Rattle.std.specs.Prelude.{◌≡◌, IfOk};
ghost use Rattle.civil_minute.specs.Zone.{IsReadable};
ghost use Rattle.host_calls.specs.ClockRange.{IsClockMinute, IsClockSecond};
ghost use Rattle.tool_output.specs.Causes.{error_of};
ghost use Rattle.listing_text.specs.declared.cause.Cause.TheVariants as cause;
ghost use Rattle.listing_text.specs.declared.refusal.Refusal.TheVariants as refusal;
ghost use Rattle.command_rules.specs.Times.{IsSpecTime, IsTimeOf, IsTouchTime, place_in};
ghost use Rattle.submission_checks.specs.TimeChecks.{IsDatedAs, MeansTime};

use at_words::When;
use civil_minute::{DateFault, Zone, minute_of, minute_of_touch};
use command_rules::CommandError;
use listing_text::{Cause, Refusal};
use std::alloc::Global;
use timespec_grammar::parse;
use timespec_lexer::{Placed, tokens};
use touch_time::read_touch;

// The minute of a time at a second now, in a zone.
pub(crate) fn minute_meant(
    alloc: Global,
    when: &When,
    now: i64,
    zone: &Zone,
) -> Result<u32, CommandError>
    requires now { IsClockSecond now }
    requires zone { IsReadable zone.now }
    ensures meant { MeansTime (IsTimeOf when.now now zone.now) result }
    ensures in_range { IfOk result IsClockMinute }
{
    match when {
        When::Spec(text) => minute_of_spec(alloc, text.as_str().as_bytes(), now, zone),
        When::Touch(text) => minute_of_touched(alloc, text.as_str().as_bytes(), now, zone),
    }
}

// The minute of a timespec.
fn minute_of_spec(alloc: Global, text: &[u8], now: i64, zone: &Zone) -> Result<u32, CommandError>
    requires now { IsClockSecond now }
    requires zone { IsReadable zone.now }
    ensures meant { MeansTime (IsSpecTime text.now now zone.now) result }
    ensures in_range { IfOk result IsClockMinute }
{
    let placed = match tokens(text) {
        Ok(placed) => placed,
        Err(fault) => return Err(misspelled(fault.place)),
    };
    let placed = placed.as_slice();
    let spec = match parse(placed) {
        Ok(spec) => spec,
        Err(fault) => return Err(misspelled(token_place(text, placed, fault.token))),
    };
    dated(minute_of(alloc, &spec, now, zone))
}

// The minute of a time of `-t`.
fn minute_of_touched(alloc: Global, text: &[u8], now: i64, zone: &Zone) -> Result<u32, CommandError>
    requires now { IsClockSecond now }
    requires zone { IsReadable zone.now }
    ensures meant { MeansTime (IsTouchTime text.now now zone.now) result }
    ensures in_range { IfOk result IsClockMinute }
{
    let Some(touch) = read_touch(text) else {
        return Err(CommandError::refused(Refusal::BadTimeArg));
    };
    dated(minute_of_touch(alloc, &touch, now, zone))
}

fn misspelled(place: u64) -> CommandError
    ensures { result ≡ error_of (cause.Refused (refusal.Timespec place)) }
{
    CommandError::refused(Refusal::Timespec { place })
}

// The place of a token, or the length of the text after the last one.
fn token_place(text: &[u8], placed: &[Placed], token: usize) -> u64
    ensures { result ≡ place_in text.now placed.now token }
{
    match placed.get(token) {
        Some(one) => one.place,
        None => text.len() as u64,
    }
}

// The minute, or the refusal of a time that means none.
fn dated(answer: Result<u32, DateFault>) -> Result<u32, CommandError>
    ensures dated { IsDatedAs answer result }
    ensures in_range { IfOk answer IsClockMinute → IfOk result IsClockMinute }
{
    match answer {
        Ok(minute) => Ok(minute),
        Err(DateFault::NoSuchDay) => Err(CommandError::refused(Refusal::NoSuchDay)),
        Err(DateFault::OutOfRange) => Err(CommandError::refused(Refusal::OutOfRange)),
        Err(DateFault::Past) => Err(CommandError::refused(Refusal::Past)),
        Err(DateFault::Memory) => Err(CommandError {
            cause: Cause::Memory,
        }),
    }
}
