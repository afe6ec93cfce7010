//! What is said of a session.
ghost use Rattle.std.specs.Prelude.{◌≡◌, ◌≤◌, None};
ghost use Rattle.tool_output.specs.Sinks.{sink_at};
ghost use Rattle.cron_turn.specs.Items.{cron_end_line};
ghost use Rattle.cron_turn.specs.inside.NextSession.{PutsLine, SaysSession, after_put, damage_in, is_done_session};

use crate::item::cause_of_cron_end;
use cron_session::CronEnd;
use host_calls::{Damage, Sink, SinkFault};
use listing_text::{Cause, cause_line};
use std::alloc::Global;

// The name under which the program says its causes.
pub(crate) const CRON_PROGRAM: &str = "atcron";

// Says how a session ended, unless it is damage. Answers the cause for which no further one is made, if there is one.
pub(crate) fn say_cron_end<E: Sink>(alloc: Global, end: &CronEnd, err: &mut E) -> Option<Cause>
    ensures made_as { (E.outlet err.new).made_as ≡ (E.outlet err.old).made_as }
    ensures later { (E.outlet err.old).sink_faults ≤ (E.outlet err.new).sink_faults }
    ensures says { SaysSession E.tells end.now
        (sink_at (E.content err.old) (E.outlet err.old)) (sink_at (E.content err.new) (E.outlet err.new)) result }
{
    match damage_in(end) {
        Some(damage) => Some(Cause::Damaged(damage)),
        None => say_line(alloc, end, err),
    }
}

// The damage that the session found, if it found one.
fn damage_in(end: &CronEnd) -> Option<Damage>
    ensures { result ≡ damage_in end.now }
{
    match end {
        CronEnd::Damaged(damage) => Some(*damage),
        _ => None,
    }
}

// Says how a session ended that found no damage. Of one that was done nothing is put, so that a sink that fails is not
// requested nothing.
fn say_line<E: Sink>(alloc: Global, end: &CronEnd, err: &mut E) -> Option<Cause>
    requires { damage_in end.now ≡ None }
    ensures made_as { (E.outlet err.new).made_as ≡ (E.outlet err.old).made_as }
    ensures later { (E.outlet err.old).sink_faults ≤ (E.outlet err.new).sink_faults }
    ensures says { SaysSession E.tells end.now
        (sink_at (E.content err.old) (E.outlet err.old)) (sink_at (E.content err.new) (E.outlet err.new)) result }
{
    if is_done_session(end) {
        return None;
    }
    let put = put_end_line(alloc, end, err);
    after_put(end, put)
}

fn is_done_session(end: &CronEnd) -> bool
    ensures { result ≡ is_done_session end.now }
{
    matches!(end, CronEnd::Done)
}

// Puts the line of a session's end.
fn put_end_line<E: Sink>(alloc: Global, end: &CronEnd, err: &mut E) -> Result<(), SinkFault>
    ensures made_as { (E.outlet err.new).made_as ≡ (E.outlet err.old).made_as }
    ensures puts { PutsLine E.tells (cron_end_line end.now)
        (sink_at (E.content err.old) (E.outlet err.old)) (sink_at (E.content err.new) (E.outlet err.new)) result }
{
    let line = cause_line(alloc, CRON_PROGRAM, &cause_of_cron_end(end))?;
    err.put(alloc, line.as_slice())
}

// Why no further session is made, by what came of the line of one. The line of an out-of-memory error may be missing.
fn after_put(end: &CronEnd, put: Result<(), SinkFault>) -> Option<Cause>
    ensures { result ≡ after_put end.now put }
{
    match put {
        Ok(()) => None,
        Err(SinkFault::Failed) => Some(Cause::OutputFault),
        Err(SinkFault::Memory) => match end {
            CronEnd::Memory => None,
            _ => Some(Cause::Memory),
        },
    }
}
