//! The lines of what the last session saw.
ghost use Rattle.std.specs.Prelude.{◌≡◌, ◌⊎◌, IfOk, Some};
ghost use Rattle.tool_output.specs.Sinks.{sink_at};
ghost use Rattle.civil_minute.specs.Zone.{IsReadable};
ghost use Rattle.host_calls.specs.Causes.{Rose};
ghost use Rattle.host_calls.specs.Session.{IsOutside};
ghost use Rattle.at_stat.specs.StatOutcome.{HasCode, IsText};
ghost use Rattle.at_stat.specs.inside.StateLines.{IsWithoutText, PutsStatesBy, PutsStateLines, sight_status};

use crate::checks::done_code;
use crate::request::StatRequest;
use crate::session_loop::StatResult;
use crate::{StatExit, asked_numbers, report_of};
use civil_minute::Zone;
use host_calls::{Bytes, Host, Sink};
use listing_text::Cause;
use spool_model::UserName;
use spool_store::Store;
use std::alloc::{AllocError, Global};
use tool_output::put_whole;

// Puts the lines of the jobs that are requested. The session is over, so that a slow reader does not hold the lock.
pub(crate) fn show_states<H: Host, O: Sink>(
    alloc: Global,
    host: &H,
    sight: &StatResult,
    user: &UserName,
    request: &StatRequest,
    zone: &Zone,
    out: &mut O,
) -> StatExit
    requires outside { IsOutside (H.session host.now) }
    requires zone { IsReadable zone.now }
    ensures made_as { (O.outlet out.new).made_as ≡ (O.outlet out.old).made_as }
    ensures code { HasCode result }
    ensures output_fault { result.cause ≡ Some Cause.OutputFault
        → Rose (O.outlet out.old).sink_faults (O.outlet out.new).sink_faults }
    ensures puts { PutsStateLines request.now user.now zone.now sight.now O.tells
        (sink_at (O.content out.old) (O.outlet out.old)) (sink_at (O.content out.new) (O.outlet out.new)) result
        ⊎ IsWithoutText O.tells (sink_at (O.content out.old) (O.outlet out.old))
        (sink_at (O.content out.new) (O.outlet out.new)) result }
{
    match states_text(alloc, &sight.store, user, request, zone) {
        Ok(text) => put_text(alloc, host, sight, request, text.as_slice(), out),
        Err(_) => StatExit::of(Cause::Memory),
    }
}

// The lines of the jobs that are requested.
fn states_text(
    alloc: Global,
    store: &Store,
    user: &UserName,
    request: &StatRequest,
    zone: &Zone,
) -> Result<Bytes, AllocError>
    requires { IsReadable zone.now }
    ensures { IfOk result (IsText request.now user.now zone.now store.now.table) }
{
    let numbers = asked_numbers(alloc, store, user, &request.which)?;
    report_of(alloc, store, &numbers, request.form, zone)
}

// Puts the text.
fn put_text<H: Host, O: Sink>(
    alloc: Global,
    host: &H,
    sight: &StatResult,
    request: &StatRequest,
    text: &[u8],
    out: &mut O,
) -> StatExit
    requires { IsOutside (H.session host.now) }
    ensures made_as { (O.outlet out.new).made_as ≡ (O.outlet out.old).made_as }
    ensures code { HasCode result }
    ensures output_fault { result.cause ≡ Some Cause.OutputFault
        → Rose (O.outlet out.old).sink_faults (O.outlet out.new).sink_faults }
    ensures puts { PutsStatesBy request.now sight.now text.now O.tells (sink_at (O.content out.old) (O.outlet out.old))
        (sink_at (O.content out.new) (O.outlet out.new)) result.code result.cause }
{
    match put_whole(alloc, host, text, out) {
        Cause::Done => sight_status(sight, request),
        cause => StatExit::of(cause),
    }
}

// The status of what was seen: that of the wait, where each awaited job is done.
fn sight_status(sight: &StatResult, request: &StatRequest) -> StatExit
    ensures { result ≡ sight_status request.now sight.now sight.now.finished }
{
    if sight.finished {
        StatExit {
            code: done_code(request.wait, &request.which, &sight.store),
            cause: None,
        }
    } else {
        StatExit::of(Cause::StillRunning)
    }
}
