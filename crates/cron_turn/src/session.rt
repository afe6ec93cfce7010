//! One more session: the clock and the file are read, the session is made, and its end is said.
ghost use Rattle.std.specs.Prelude.{◌≡◌, ◌<◌, None};
ghost use Rattle.tool_output.specs.Outside.{RestsOn, clock_at};
ghost use Rattle.civil_minute.specs.Zone.{IsReadable};
ghost use Rattle.host_calls.specs.Session.{IsOutside};
ghost use Rattle.job_script.specs.Check.{first_fault};
ghost use Rattle.cron_turn.specs.Outside.{StaysSo, run_at, cron_telling};
ghost use Rattle.cron_turn.specs.inside.NextSession.{Turns};

use crate::item::rest_after_session;
use crate::lines::say_cron_end;
use crate::read_entries;
use cron_session::cron_session;
use host_calls::{Host, Inputs, Readings, Sink, is_clock_second};
use listing_text::{Cause, Refusal};
use std::alloc::Global;
use tool_output::Caller;

// Rests before a session, if it is not the first.
pub(crate) fn rest_before_cron_session<R: Readings>(rest: Option<u32>, readings: &mut R)
    ensures { RestsOn R.tells rest (clock_at R.Readings readings.old) (clock_at R.Readings readings.new) }
{
    match rest {
        Some(seconds) => readings.rest(seconds),
        None => {}
    }
}

// Makes one session on what the file has now. Answers the cause for which no further one is made, if there is one, and
// keeps for how long to rest before it else.
pub(crate) fn next_cron_session<H: Host, R: Readings, I: Inputs, E: Sink>(
    alloc: Global,
    path: &str,
    caller: &Caller,
    rest: &mut Option<u32>,
    host: &mut H,
    readings: &mut R,
    inputs: &mut I,
    err: &mut E,
) -> Option<Cause>
    requires outside { IsOutside (H.session host.old) }
    requires context { first_fault caller.now.context ≡ None }
    requires umask { caller.now.context.umask < 512 }
    requires zone { IsReadable caller.now.zone }
    ensures err_made { (E.outlet err.new).made_as ≡ (E.outlet err.old).made_as }
    ensures stays { StaysSo (run_at H.Host R.Readings I.Inputs E.Sink host.old readings.old inputs.old err.old)
        (run_at H.Host R.Readings I.Inputs E.Sink host.new readings.new inputs.new err.new) }
    ensures turns { Turns (cron_telling H.Host R.Readings I.Inputs E.Sink) caller.now path.now rest.new
        (run_at H.Host R.Readings I.Inputs E.Sink host.old readings.old inputs.old err.old)
        (run_at H.Host R.Readings I.Inputs E.Sink host.new readings.new inputs.new err.new) result }
{
    let now = readings.now();
    if !is_clock_second(now) {
        return Some(Cause::Refused(Refusal::BadClock));
    }
    let entries = match read_entries(alloc, path, inputs) {
        Ok(entries) => entries,
        Err(stopped) => return Some(stopped.cause),
    };
    let report = cron_session(alloc, host, &caller.context, &caller.zone, &entries, now);
    *rest = Some(rest_after_session(&report.end, now));
    say_cron_end(alloc, &report.end, err)
}
