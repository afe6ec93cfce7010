//! The command: what its words request, done.
ghost use Rattle.std.specs.Prelude.{◌≡◌, ◌<◌, ◌≤◌, Ok, map, string_bytes, false};
ghost use Rattle.at_words.specs.Queues.{HasQueueLetter};
ghost use Rattle.at_words.specs.Requests.{request_of};
ghost use Rattle.host_calls.specs.Session.{IsOutside};
ghost use Rattle.listing_text.specs.Cause.{status_of};
ghost use Rattle.tool_output.specs.Sinks.{NotesBy, SaysBy, sink_at};
ghost use Rattle.daemon_turn.specs.Daemons.{new_daemon};
ghost use Rattle.serving.specs.Outside.{EndsOutside, HasRisenServing, StaysMadeServing, serving_outside};
ghost use Rattle.serving.specs.Serves.{serve_at};
ghost use Rattle.at_commands.specs.Outside.{EndsUnserved, HasRisenAsked, ServesAsked, StaysMade};
ghost use Rattle.tool_output.specs.Outside.{outside_at, telling};
ghost use Rattle.at_commands.specs.Served.{IsNotServed, ServesAnew};
ghost use Rattle.at_commands.specs.Tools.{name_of_command, name_or_at, tool_name_of};

use crate::list::list_jobs;
use crate::remove::remove;
use crate::show::show;
use crate::submit::submit_job;
use at_words::{Tool, ToolRequest, request_by, tool_of};
use command_rules::{Caller, cause_of_words};
use daemon_turn::Daemon;
use host_calls::{Host, Inputs, Readings, Sink};
use listing_text::{Cause, Refusal, Status};
use serving::serve;
use std::alloc::Global;
use tool_output::say_cause;

/// Does what the words of the tools request. A day is not made here: what words of `atday` request is refused.
pub fn command<H: Host, R: Readings, I: Inputs, O: Sink, E: Sink>(
    alloc: Global,
    words: &[String],
    caller: &Caller,
    host: &mut H,
    readings: &mut R,
    inputs: &mut I,
    out: &mut O,
    err: &mut E,
) -> Status
    requires outside { IsOutside (H.session host.old) }
    requires umask { caller.now.context.umask < 512 }

    ensures code { result ≡ status_of result.cause }
    ensures session { EndsOutside (H.session host.old) (H.session host.new) }

    // Each fault comes only where its count rose.
    ensures faults { HasRisenAsked (request_of (map string_bytes words.now))
        (outside_at H.Host R.Readings I.Inputs O.Sink E.Sink host.old readings.old inputs.old out.old err.old)
        (outside_at H.Host R.Readings I.Inputs O.Sink E.Sink host.new readings.new inputs.new out.new err.new) result.cause }

    // What no daemon does, and what a daemon does.
    ensures ends { IsNotServed (request_of (map string_bytes words.now)) →
        EndsUnserved (SaysBy (tool_name_of (map string_bytes words.now))) (request_of (map string_bytes words.now)) caller.now
        (outside_at H.Host R.Readings I.Inputs O.Sink E.Sink host.old readings.old inputs.old out.old err.old)
        (outside_at H.Host R.Readings I.Inputs O.Sink E.Sink host.new readings.new inputs.new out.new err.new) result.cause }
    ensures serves { ServesAsked (request_of (map string_bytes words.now))
        (outside_at H.Host R.Readings I.Inputs O.Sink E.Sink host.old readings.old inputs.old out.old err.old)
        (outside_at H.Host R.Readings I.Inputs O.Sink E.Sink host.new readings.new inputs.new out.new err.new) result.cause }

    // What the others were made as stays.
    ensures made { StaysMade (request_of (map string_bytes words.now))
        (outside_at H.Host R.Readings I.Inputs O.Sink E.Sink host.old readings.old inputs.old out.old err.old)
        (outside_at H.Host R.Readings I.Inputs O.Sink E.Sink host.new readings.new inputs.new out.new err.new) }
{
    let named = tool_of(words);
    match request_by(alloc, named, words) {
        Ok(asked) => match asked {
            ToolRequest::Daemon {
                limit,
                interval,
                once,
                turns,
            } => serve_anew(
                alloc, limit, interval, once, turns, host, readings, out, err,
            ),
            asked => run_request(
                alloc,
                asked,
                tool_name(named),
                caller,
                host,
                readings,
                inputs,
                out,
                err,
            ),
        },
        Err(fault) => Status::of(say_cause(alloc, tool_name(named), cause_of_words(fault), err)),
    }
}

// Serves with a daemon without children.
fn serve_anew<H: Host, R: Readings, O: Sink, E: Sink>(
    alloc: Global,
    limit: u32,
    interval: u32,
    once: bool,
    turns: u64,
    host: &mut H,
    readings: &mut R,
    out: &mut O,
    err: &mut E,
) -> Status
    requires outside { IsOutside (H.session host.old) }
    requires turns { 1 ≤ turns }
    ensures code { result ≡ status_of result.cause }
    ensures session { EndsOutside (H.session host.old) (H.session host.new) }
    ensures faults { HasRisenServing
        (serving_outside H.Host R.Readings O.Sink E.Sink host.old readings.old out.old err.old)
        (serving_outside H.Host R.Readings O.Sink E.Sink host.new readings.new out.new err.new) result.cause }
    ensures serves { ServesAnew (telling H.tells H.alone R.tells false O.tells E.tells) limit interval once turns
        (λ daemon. serve_at (H.session host.old) (H.world host.old) daemon (R.answers readings.old) (R.readers readings.old))
        (λ daemon. serve_at (H.session host.new) (H.world host.new) daemon (R.answers readings.new) (R.readers readings.new))
        (sink_at (O.content out.old) (O.outlet out.old)) (sink_at (O.content out.new) (O.outlet out.new))
        (sink_at (E.content err.old) (E.outlet err.old)) (sink_at (E.content err.new) (E.outlet err.new)) result.cause }
    ensures made { StaysMadeServing
        (serving_outside H.Host R.Readings O.Sink E.Sink host.old readings.old out.old err.old)
        (serving_outside H.Host R.Readings O.Sink E.Sink host.new readings.new out.new err.new) }
{
    let mut daemon = Daemon::new(alloc, limit, interval);
    serve(alloc, &mut daemon, turns, once, host, readings, out, err)
}

// Does what is requested, and says the line of its cause.
fn run_request<H: Host, R: Readings, I: Inputs, O: Sink, E: Sink>(
    alloc: Global,
    asked: ToolRequest,
    tool: &str,
    caller: &Caller,
    host: &mut H,
    readings: &mut R,
    inputs: &mut I,
    out: &mut O,
    err: &mut E,
) -> Status
    requires outside { IsOutside (H.session host.old) }
    requires umask { caller.now.context.umask < 512 }
    requires letter { HasQueueLetter asked }
    requires tool { IsNotServed (Ok asked) }
    ensures code { result ≡ status_of result.cause }
    ensures faults { HasRisenAsked (Ok asked)
        (outside_at H.Host R.Readings I.Inputs O.Sink E.Sink host.old readings.old inputs.old out.old err.old)
        (outside_at H.Host R.Readings I.Inputs O.Sink E.Sink host.new readings.new inputs.new out.new err.new) result.cause }
    ensures ends { EndsUnserved (SaysBy tool.now) (Ok asked) caller.now
        (outside_at H.Host R.Readings I.Inputs O.Sink E.Sink host.old readings.old inputs.old out.old err.old)
        (outside_at H.Host R.Readings I.Inputs O.Sink E.Sink host.new readings.new inputs.new out.new err.new) result.cause }
    ensures made { StaysMade (Ok asked)
        (outside_at H.Host R.Readings I.Inputs O.Sink E.Sink host.old readings.old inputs.old out.old err.old)
        (outside_at H.Host R.Readings I.Inputs O.Sink E.Sink host.new readings.new inputs.new out.new err.new) }
{
    let cause = dispatch(alloc, asked, caller, host, readings, inputs, out, err);
    Status::of(say_cause(alloc, tool, cause, err))
}

// Does what is requested. The line of the cause is still to be said.
fn dispatch<H: Host, R: Readings, I: Inputs, O: Sink, E: Sink>(
    alloc: Global,
    asked: ToolRequest,
    caller: &Caller,
    host: &mut H,
    readings: &mut R,
    inputs: &mut I,
    out: &mut O,
    err: &mut E,
) -> Cause
    requires outside { IsOutside (H.session host.old) }
    requires umask { caller.now.context.umask < 512 }
    requires letter { HasQueueLetter asked }
    requires tool { IsNotServed (Ok asked) }
    ensures faults { HasRisenAsked (Ok asked)
        (outside_at H.Host R.Readings I.Inputs O.Sink E.Sink host.old readings.old inputs.old out.old err.old)
        (outside_at H.Host R.Readings I.Inputs O.Sink E.Sink host.new readings.new inputs.new out.new err.new) result }
    ensures ends { EndsUnserved NotesBy (Ok asked) caller.now
        (outside_at H.Host R.Readings I.Inputs O.Sink E.Sink host.old readings.old inputs.old out.old err.old)
        (outside_at H.Host R.Readings I.Inputs O.Sink E.Sink host.new readings.new inputs.new out.new err.new) result }
    ensures made { StaysMade (Ok asked)
        (outside_at H.Host R.Readings I.Inputs O.Sink E.Sink host.old readings.old inputs.old out.old err.old)
        (outside_at H.Host R.Readings I.Inputs O.Sink E.Sink host.new readings.new inputs.new out.new err.new) }
{
    match asked {
        ToolRequest::Submit {
            queue,
            mail,
            file,
            when,
        } => submit_job(
            alloc, queue, mail, &file, &when, caller, host, readings, inputs, err,
        ),
        ToolRequest::List(which) => list_jobs(alloc, &which, caller, host, out),
        ToolRequest::Remove(numbers) => remove(alloc, &numbers, caller, host),
        ToolRequest::Show(numbers) => show(alloc, &numbers, caller, host, out),
        ToolRequest::Daemon { .. } => unreachable!(),
        ToolRequest::Make(_) => Cause::Refused(Refusal::Usage),
    }
}

// The name of the tool that was named, or of `at` where none was.
fn tool_name(named: Option<(Tool, usize)>) -> &'static str
    ensures { result.now ≡ name_or_at named }
{
    match named {
        Some((tool, _)) => name_of_command(tool),
        None => "at",
    }
}

// The name by which a tool is called, as it begins its lines.
fn name_of_command(tool: Tool) -> &'static str
    ensures { result.now ≡ name_of_command tool }
{
    match tool {
        Tool::At => "at",
        Tool::Batch => "batch",
        Tool::Atq => "atq",
        Tool::Atrm => "atrm",
        Tool::Atd => "atd",
        Tool::Atday => "atday",
    }
}
