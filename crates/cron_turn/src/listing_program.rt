//! The program: what its words request, done.
ghost use Rattle.std.specs.Prelude.{◌≡◌, codes, map, string_bytes};
ghost use Rattle.tool_output.specs.Sinks.{sink_at};
ghost use Rattle.listing_text.specs.Cause.{status_of};
ghost use Rattle.cron_turn.specs.ListingRun.{IsListed, ListsOrLacksMemory, NextRuns, PutsListing, listing_at, listing_telling};
ghost use Rattle.cron_turn.specs.ListingWords.{next_asked};

use crate::listing_read::read_listing;
use crate::listing_words::{NextRequest, listing_request};
use civil_minute::{Zone, is_unreadable};
use host_calls::{Inputs, Readings, Sink};
use listing_text::{Cause, Refusal, Status};
use std::alloc::Global;
use tool_output::{cause_of_put, cause_of_words, say_cause};

// The name under which the program says its causes.
const PROGRAM: &str = "atcron";

/// Lists the next minutes at which the entries of a crontab are due, from the minute after that of the clock on. No spool
/// is looked at. The first of the words is the program's name, whatever it is.
pub fn next_program<R: Readings, I: Inputs, O: Sink, E: Sink>(
    alloc: Global,
    words: &[String],
    zone: &Zone,
    readings: &mut R,
    inputs: &mut I,
    out: &mut O,
    err: &mut E,
) -> Status
    ensures code { result ≡ status_of result.cause }
    ensures out_made { (O.outlet out.new).made_as ≡ (O.outlet out.old).made_as }
    ensures err_made { (E.outlet err.new).made_as ≡ (E.outlet err.old).made_as }
    ensures runs { NextRuns (next_asked (map string_bytes words.now))
        (listing_telling R.Readings I.Inputs O.Sink) E.tells zone.now
        (listing_at R.Readings I.Inputs O.Sink readings.old inputs.old out.old)
        (listing_at R.Readings I.Inputs O.Sink readings.new inputs.new out.new)
        (sink_at (E.content err.old) (E.outlet err.old)) (sink_at (E.content err.new) (E.outlet err.new)) result.cause }
{
    let cause = list_by_words(alloc, words, zone, readings, inputs, out);
    Status::of(say_cause(alloc, PROGRAM, cause, err))
}

// Does what the words request. The line of the cause is still to be said.
fn list_by_words<R: Readings, I: Inputs, O: Sink>(
    alloc: Global,
    words: &[String],
    zone: &Zone,
    readings: &mut R,
    inputs: &mut I,
    out: &mut O,
) -> Cause
    ensures out_made { (O.outlet out.new).made_as ≡ (O.outlet out.old).made_as }
    ensures lists { ListsOrLacksMemory (next_asked (map string_bytes words.now))
        (listing_telling R.Readings I.Inputs O.Sink) zone.now
        (listing_at R.Readings I.Inputs O.Sink readings.old inputs.old out.old)
        (listing_at R.Readings I.Inputs O.Sink readings.new inputs.new out.new) result }
{
    match listing_request(alloc, words) {
        Ok(request) => list_unless(alloc, &request, zone, readings, inputs, out),
        Err(fault) => cause_of_words(fault),
    }
}

// Lists the minutes, unless the zone can't be read.
fn list_unless<R: Readings, I: Inputs, O: Sink>(
    alloc: Global,
    request: &NextRequest,
    zone: &Zone,
    readings: &mut R,
    inputs: &mut I,
    out: &mut O,
) -> Cause
    ensures out_made { (O.outlet out.new).made_as ≡ (O.outlet out.old).made_as }
    ensures listed { IsListed (listing_telling R.Readings I.Inputs O.Sink) zone.now request.now
        (listing_at R.Readings I.Inputs O.Sink readings.old inputs.old out.old)
        (listing_at R.Readings I.Inputs O.Sink readings.new inputs.new out.new) result }
{
    if is_unreadable(zone) {
        return Cause::Refused(Refusal::BadZone);
    }
    match read_listing(alloc, request, zone, readings, inputs) {
        Ok(text) => put_listing(alloc, text.as_slice(), out),
        Err(stopped) => stopped.cause,
    }
}

// Puts the text, at once; nothing where it is empty, so that a sink that fails is not requested nothing.
fn put_listing<O: Sink>(alloc: Global, text: &[u8], out: &mut O) -> Cause
    ensures made_as { (O.outlet out.new).made_as ≡ (O.outlet out.old).made_as }
    ensures puts { PutsListing O.tells text.now
        (sink_at (O.content out.old) (O.outlet out.old)) (sink_at (O.content out.new) (O.outlet out.new)) result }
{
    if text.is_empty() {
        return Cause::Done;
    }
    cause_of_put(out.put(alloc, text))
}
