//! The loop of sessions.
ghost use Rattle.std.specs.Prelude.{◌≡◌, ◌<◌, None};
ghost use Rattle.civil_minute.specs.Zone.{IsReadable};
ghost use Rattle.host_calls.specs.Session.{IsOutside};
ghost use Rattle.job_script.specs.Check.{first_fault};
ghost use Rattle.cron_turn.specs.Outside.{StaysSo, run_at, cron_telling};
ghost use Rattle.cron_turn.specs.CronRuns.{RunsSessions};

use crate::session::{next_cron_session, rest_before_cron_session};
use crate::words::CronRequest;
use host_calls::{Host, Inputs, Readings, Sink};
use listing_text::Cause;
use std::alloc::Global;
use tool_output::Caller;

// Makes so many sessions, or as many as there are up to one that ends it, with a rest between each two.
pub(crate) fn make_cron_sessions<H: Host, R: Readings, I: Inputs, E: Sink>(
    alloc: Global,
    request: &CronRequest,
    caller: &Caller,
    host: &mut H,
    readings: &mut R,
    inputs: &mut I,
    err: &mut E,
) -> Cause
    requires outside { IsOutside (H.session host.old) }
    requires context { first_fault caller.now.context ≡ None }
    requires umask { caller.now.context.umask < 512 }
    requires zone { IsReadable caller.now.zone }
    ensures err_made { (E.outlet err.new).made_as ≡ (E.outlet err.old).made_as }
    ensures stays { StaysSo (run_at H.Host R.Readings I.Inputs E.Sink host.old readings.old inputs.old err.old)
        (run_at H.Host R.Readings I.Inputs E.Sink host.new readings.new inputs.new err.new) }
    ensures works { RunsSessions (cron_telling H.Host R.Readings I.Inputs E.Sink) caller.now request.now
        (run_at H.Host R.Readings I.Inputs E.Sink host.old readings.old inputs.old err.old)
        (run_at H.Host R.Readings I.Inputs E.Sink host.new readings.new inputs.new err.new) result }
{
    let path = request.file.as_str();
    let mut rest = None;
    for _turn in 0..request.turns {
        rest_before_cron_session(rest, readings);
        match next_cron_session(alloc, path, caller, &mut rest, host, readings, inputs, err) {
            Some(cause) => return cause,
            None => {}
        }
    }
    Cause::Done
}
