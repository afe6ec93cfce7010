//! The program: what its words request, done.
ghost use Rattle.std.specs.Prelude.{◌≡◌, ◌<◌, codes, false, map, string_bytes, true};
ghost use Rattle.at_commands.specs.Outside.{HasRisenAsked, ServesAsked, StaysMade};
ghost use Rattle.tool_output.specs.Outside.{outside_at};
ghost use Rattle.at_commands.specs.Served.{IsNotServed};
ghost use Rattle.at_words.specs.declared.tool_request.ToolRequest.TheVariants as request;
ghost use Rattle.at_words.specs.Requests.{request_of};
ghost use Rattle.tool_output.specs.Sinks.{EndsLine, sink_at};
ghost use Rattle.host_calls.specs.Session.{IsOutside};
ghost use Rattle.listing_text.specs.Cause.{status_of};
ghost use Rattle.serving.specs.Outside.{EndsOutside};
ghost use Rattle.at_day.specs.Programs.{EndsDay, EndsUnservedUnlessDay, MakesDay, asks_for_day, makes_days};
ghost use Rattle.at_day.specs.inside.DayParts.{IsDayRequest};

use crate::made_day::put_day;
use at_commands::{Caller, command};
use at_words::{Tool, ToolRequest, request, tool_of};
use command_rules::{cause_of_put, cause_of_words};
use host_calls::{Host, Inputs, Readings, Sink};
use listing_text::{Cause, Status};
use std::alloc::Global;
use tool_output::say_cause;

// The name of the tool that makes days, as it begins its lines.
const DAY_TOOL: &str = "atday";

/// Does what the words of the tools request. Words of `atday` make a day on a host of its own, in memory, and print what
/// it comes to; they touch neither this host nor the clock nor the input.
pub fn program<H: Host, R: Readings, I: Inputs, O: Sink, E: Sink>(
    alloc: Global,
    words: &[String],
    caller: &Caller,
    host: &mut H,
    readings: &mut R,
    inputs: &mut I,
    out: &mut O,
    err: &mut E,
) -> Status
    requires outside { IsOutside (H.session host.old) }
    requires umask { caller.now.context.umask < 512 }

    ensures code { result ≡ status_of result.cause }
    ensures session { EndsOutside (H.session host.old) (H.session host.new) }

    // Each fault comes only where its count rose.
    ensures faults { HasRisenAsked (request_of (map string_bytes words.now))
        (outside_at H.Host R.Readings I.Inputs O.Sink E.Sink host.old readings.old inputs.old out.old err.old)
        (outside_at H.Host R.Readings I.Inputs O.Sink E.Sink host.new readings.new inputs.new out.new err.new) result.cause }

    // What no daemon does, what a daemon does, and what words of `atday` do.
    ensures ends { IsNotServed (request_of (map string_bytes words.now)) →
        EndsUnservedUnlessDay (map string_bytes words.now) caller.now
        (outside_at H.Host R.Readings I.Inputs O.Sink E.Sink host.old readings.old inputs.old out.old err.old)
        (outside_at H.Host R.Readings I.Inputs O.Sink E.Sink host.new readings.new inputs.new out.new err.new) result.cause }
    ensures serves { ServesAsked (request_of (map string_bytes words.now))
        (outside_at H.Host R.Readings I.Inputs O.Sink E.Sink host.old readings.old inputs.old out.old err.old)
        (outside_at H.Host R.Readings I.Inputs O.Sink E.Sink host.new readings.new inputs.new out.new err.new) result.cause }
    ensures day { asks_for_day (map string_bytes words.now) ≡ true →
        MakesDay (request_of (map string_bytes words.now)) host.old host.new readings.old readings.new inputs.old inputs.new
        (outside_at H.Host R.Readings I.Inputs O.Sink E.Sink host.old readings.old inputs.old out.old err.old)
        (outside_at H.Host R.Readings I.Inputs O.Sink E.Sink host.new readings.new inputs.new out.new err.new) result.cause }

    // What the others were made as stays.
    ensures made { StaysMade (request_of (map string_bytes words.now))
        (outside_at H.Host R.Readings I.Inputs O.Sink E.Sink host.old readings.old inputs.old out.old err.old)
        (outside_at H.Host R.Readings I.Inputs O.Sink E.Sink host.new readings.new inputs.new out.new err.new) }
{
    if asks_for_day(words) {
        return answer_day(alloc, words, out, err);
    }
    command(alloc, words, caller, host, readings, inputs, out, err)
}

/// Whether the words are those of `atday`, for which `program` leaves the host alone.
pub fn asks_for_day(words: &[String]) -> bool
    ensures { result ≡ asks_for_day (map string_bytes words.now) }
{
    match tool_of(words) {
        Some((tool, _)) => makes_days(tool),
        None => false,
    }
}

// Whether the tool makes days.
fn makes_days(tool: Tool) -> bool
    ensures { result ≡ makes_days tool }
{
    matches!(tool, Tool::Atday)
}

// Makes and tells the day that words of `atday` request, and says the line of its cause.
fn answer_day<O: Sink, E: Sink>(alloc: Global, words: &[String], out: &mut O, err: &mut E) -> Status
    requires { asks_for_day (map string_bytes words.now) ≡ true }
    ensures code { result ≡ status_of result.cause }
    ensures day { EndsDay O.tells (request_of (map string_bytes words.now))
        (sink_at (O.content out.old) (O.outlet out.old)) (sink_at (O.content out.new) (O.outlet out.new)) result.cause }
    ensures says { E.tells ≡ true → EndsLine (codes "atday") result.cause
        (sink_at (E.content err.old) (E.outlet err.old)) (sink_at (E.content err.new) (E.outlet err.new)) }
    ensures out_made { (O.outlet out.new).made_as ≡ (O.outlet out.old).made_as }
    ensures errors_made { (E.outlet err.new).made_as ≡ (E.outlet err.old).made_as }
{
    let cause = make_run(alloc, words, out);
    Status::of(say_cause(alloc, DAY_TOOL, cause, err))
}

// Makes and tells the day that words of `atday` request. The line of the cause is still to be said.
fn make_run<O: Sink>(alloc: Global, words: &[String], out: &mut O) -> Cause
    requires { asks_for_day (map string_bytes words.now) ≡ true }
    ensures made_as { (O.outlet out.new).made_as ≡ (O.outlet out.old).made_as }
    ensures day { EndsDay O.tells (request_of (map string_bytes words.now))
        (sink_at (O.content out.old) (O.outlet out.old)) (sink_at (O.content out.new) (O.outlet out.new)) result }
{
    match request(alloc, words) {
        Ok(asked) => cause_of_put(put_day(alloc, events_asked(asked), out)),
        Err(fault) => cause_of_words(fault),
    }
}

// How many events the day is to have.
fn events_asked(asked: ToolRequest) -> u32
    requires { IsDayRequest asked }
    ensures { asked ≡ request.Make result }
{
    match asked {
        ToolRequest::Make(count) => count,
        ToolRequest::Submit { .. } => unreachable!(),
        ToolRequest::List(_) => unreachable!(),
        ToolRequest::Remove(_) => unreachable!(),
        ToolRequest::Show(_) => unreachable!(),
        ToolRequest::Daemon { .. } => unreachable!(),
    }
}
