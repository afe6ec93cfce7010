//! The program: what its words request, done.
ghost use Rattle.std.specs.Prelude.{◌≡◌, ◌≤◌, IfSome, Ok, map, string_bytes};
ghost use Rattle.tool_output.specs.Sinks.{sink_at};
ghost use Rattle.host_calls.specs.Session.{IsOutside};
ghost use Rattle.spool_model.specs.Users.{IsUserName};
ghost use Rattle.at_stat.specs.StatOutcome.{HasStatEnded, SaysCause, Stating, stat_outside};
ghost use Rattle.at_stat.specs.Words.{stat_asked};

use crate::StatExit;
use crate::lines::show_states;
use crate::request::StatRequest;
use crate::session_loop::final_result;
use crate::words::stat_request;
use civil_minute::is_unreadable;
use host_calls::{Host, Readings, Sink};
use listing_text::{Cause, Refusal};
use spool_model::UserName;
use std::alloc::Global;
use tool_output::{Caller, cause_of_words, say_cause};

// The name under which the program says its causes.
const PROGRAM: &str = "atstat";

/// Puts a line for each job that is requested, over what one session of the spool shows, or, with `-w`, the last of several:
/// they are a second apart, and end once no awaited job lives.
pub fn stat_program<H: Host, R: Readings, O: Sink, E: Sink>(
    alloc: Global,
    words: &[String],
    caller: &Caller,
    host: &mut H,
    readings: &mut R,
    out: &mut O,
    err: &mut E,
) -> StatExit
    requires { IsOutside (H.session host.old) }
    ensures stating { Stating (stat_asked (map string_bytes words.now)) caller.now
        (stat_outside H.Host R.Readings O.Sink host.old readings.old out.old)
        (stat_outside H.Host R.Readings O.Sink host.new readings.new out.new)
        E.tells (sink_at (E.content err.old) (E.outlet err.old)) (sink_at (E.content err.new) (E.outlet err.new)) result }
    ensures made_as { (E.outlet err.new).made_as ≡ (E.outlet err.old).made_as }
{
    let ended = states_by_words(alloc, words, caller, host, readings, out);
    say_stat_end(alloc, &ended, err)
}

// Says the line of the cause, if there is one.
fn say_stat_end<E: Sink>(alloc: Global, ended: &StatExit, err: &mut E) -> StatExit
    ensures says { SaysCause E.tells (sink_at (E.content err.old) (E.outlet err.old))
        (sink_at (E.content err.new) (E.outlet err.new)) ended.now.code ended.now.cause result }
    ensures made_as { (E.outlet err.new).made_as ≡ (E.outlet err.old).made_as }
{
    match ended.cause {
        Some(cause) => StatExit::of(say_cause(alloc, PROGRAM, cause, err)),
        None => *ended,
    }
}

// Does what the words request. The line of the cause is still to be said.
fn states_by_words<H: Host, R: Readings, O: Sink>(
    alloc: Global,
    words: &[String],
    caller: &Caller,
    host: &mut H,
    readings: &mut R,
    out: &mut O,
) -> StatExit
    requires { IsOutside (H.session host.old) }
    ensures { HasStatEnded (stat_asked (map string_bytes words.now)) caller.now
        (stat_outside H.Host R.Readings O.Sink host.old readings.old out.old)
        (stat_outside H.Host R.Readings O.Sink host.new readings.new out.new) result }
{
    match stat_request(alloc, words) {
        Ok(request) => stat(alloc, &request, caller, host, readings, out),
        Err(fault) => StatExit::of(cause_of_words(fault)),
    }
}

// Puts the lines that are requested.
fn stat<H: Host, R: Readings, O: Sink>(
    alloc: Global,
    request: &StatRequest,
    caller: &Caller,
    host: &mut H,
    readings: &mut R,
    out: &mut O,
) -> StatExit
    requires outside { IsOutside (H.session host.old) }
    requires turns { IfSome request.now.wait (λ turns. 1 ≤ turns) }
    ensures { HasStatEnded (Ok request.now) caller.now
        (stat_outside H.Host R.Readings O.Sink host.old readings.old out.old)
        (stat_outside H.Host R.Readings O.Sink host.new readings.new out.new) result }
{
    match UserName::of(caller.context.user.as_str().as_bytes()) {
        Some(user) => stat_for(alloc, &user, request, caller, host, readings, out),
        None => StatExit::of(Cause::Refused(Refusal::BadUser)),
    }
}

// Puts them for the user that the caller is.
fn stat_for<H: Host, R: Readings, O: Sink>(
    alloc: Global,
    user: &UserName,
    request: &StatRequest,
    caller: &Caller,
    host: &mut H,
    readings: &mut R,
    out: &mut O,
) -> StatExit
    requires outside { IsOutside (H.session host.old) }
    requires turns { IfSome request.now.wait (λ turns. 1 ≤ turns) }
    requires named { IsUserName caller.now.context.user }
    requires user { caller.now.context.user ≡ user.now }
    ensures { HasStatEnded (Ok request.now) caller.now
        (stat_outside H.Host R.Readings O.Sink host.old readings.old out.old)
        (stat_outside H.Host R.Readings O.Sink host.new readings.new out.new) result }
{
    if is_unreadable(&caller.zone) {
        return StatExit::of(Cause::Refused(Refusal::BadZone));
    }
    match final_result(alloc, user, request, host, readings) {
        Ok(sight) => show_states(alloc, host, &sight, user, request, &caller.zone, out),
        Err(stopped) => StatExit::of(stopped.cause),
    }
}
