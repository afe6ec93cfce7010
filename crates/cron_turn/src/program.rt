//! The program: what its words request, done.
ghost use Rattle.std.specs.Prelude.{◌≡◌, ◌<◌, map, string_bytes};
ghost use Rattle.host_calls.specs.Session.{IsOutside};
ghost use Rattle.listing_text.specs.Cause.{status_of};
ghost use Rattle.cron_turn.specs.Outside.{StaysSo, run_at, cron_telling};
ghost use Rattle.cron_turn.specs.CronRuns.{RunsOrLacksMemory, CronRuns, HasRisenInTurns, caller_refused, refused_zone};
ghost use Rattle.cron_turn.specs.Words.{cron_asked};

use crate::lines::CRON_PROGRAM;
use crate::session_loop::make_cron_sessions;
use crate::words::cron_request;
use civil_minute::Zone;
use host_calls::{Host, Inputs, Readings, Sink};
use job_script::check;
use listing_text::{Cause, Refusal, Status};
use std::alloc::Global;
use tool_output::{Caller, CommandError, cause_of_words, say_cause};

/// Makes sessions of a crontab, one after another: each reads the clock and the crontab, and submits a job of each entry
/// that is due at this minute, unless that minute was had before. The first of the words is the program's name,
/// whatever it is.
pub fn cron_program<H: Host, R: Readings, I: Inputs, E: Sink>(
    alloc: Global,
    words: &[String],
    caller: &Caller,
    host: &mut H,
    readings: &mut R,
    inputs: &mut I,
    err: &mut E,
) -> Status
    requires outside { IsOutside (H.session host.old) }
    requires umask { caller.now.context.umask < 512 }
    ensures code { result ≡ status_of result.cause }
    ensures err_made { (E.outlet err.new).made_as ≡ (E.outlet err.old).made_as }
    ensures stays { StaysSo (run_at H.Host R.Readings I.Inputs E.Sink host.old readings.old inputs.old err.old)
        (run_at H.Host R.Readings I.Inputs E.Sink host.new readings.new inputs.new err.new) }
    ensures risen { HasRisenInTurns (run_at H.Host R.Readings I.Inputs E.Sink host.old readings.old inputs.old err.old)
        (run_at H.Host R.Readings I.Inputs E.Sink host.new readings.new inputs.new err.new) result.cause }
    ensures runs { CronRuns (cron_asked (map string_bytes words.now))
        (cron_telling H.Host R.Readings I.Inputs E.Sink) caller.now
        (run_at H.Host R.Readings I.Inputs E.Sink host.old readings.old inputs.old err.old)
        (run_at H.Host R.Readings I.Inputs E.Sink host.new readings.new inputs.new err.new) result.cause }
{
    let cause = run_by_words(alloc, words, caller, host, readings, inputs, err);
    Status::of(say_cause(alloc, CRON_PROGRAM, cause, err))
}

// Does what the words request, unless the caller is refused. The line of the cause is still to be said.
fn run_by_words<H: Host, R: Readings, I: Inputs, E: Sink>(
    alloc: Global,
    words: &[String],
    caller: &Caller,
    host: &mut H,
    readings: &mut R,
    inputs: &mut I,
    err: &mut E,
) -> Cause
    requires outside { IsOutside (H.session host.old) }
    requires umask { caller.now.context.umask < 512 }
    ensures err_made { (E.outlet err.new).made_as ≡ (E.outlet err.old).made_as }
    ensures stays { StaysSo (run_at H.Host R.Readings I.Inputs E.Sink host.old readings.old inputs.old err.old)
        (run_at H.Host R.Readings I.Inputs E.Sink host.new readings.new inputs.new err.new) }
    ensures does { RunsOrLacksMemory (cron_asked (map string_bytes words.now))
        (cron_telling H.Host R.Readings I.Inputs E.Sink) caller.now
        (run_at H.Host R.Readings I.Inputs E.Sink host.old readings.old inputs.old err.old)
        (run_at H.Host R.Readings I.Inputs E.Sink host.new readings.new inputs.new err.new) result }
{
    let request = match cron_request(alloc, words) {
        Ok(request) => request,
        Err(fault) => return cause_of_words(fault),
    };
    match caller_refusal(caller) {
        Some(cause) => cause,
        None => make_cron_sessions(alloc, &request, caller, host, readings, inputs, err),
    }
}

// What the caller is refused for: its user, its directory, its variables, then its zone.
fn caller_refusal(caller: &Caller) -> Option<Cause>
    ensures { result ≡ caller_refused caller.now }
{
    match check(&caller.context) {
        Ok(()) => refused_zone(&caller.zone),
        Err(fault) => Some(CommandError::from(fault).cause),
    }
}

fn refused_zone(zone: &Zone) -> Option<Cause>
    ensures { result ≡ refused_zone zone.now }
{
    match zone {
        Zone::Unreadable => Some(Cause::Refused(Refusal::BadZone)),
        Zone::Utc => None,
        Zone::Rules(_) => None,
    }
}
