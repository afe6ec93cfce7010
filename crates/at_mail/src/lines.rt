//! The line of a session's end, and what the program comes to by it.
ghost use Rattle.std.specs.Prelude.{◌≡◌, ◌≤◌, Some};
ghost use Rattle.tool_output.specs.Sinks.{sink_at};
ghost use Rattle.at_mail.specs.Outcomes.{SaysMailEnd, session_outcome, outcome_cut, outcome_said, outcome_unsaid};
ghost use Rattle.at_mail.specs.Program.{SaysMailOutcome};

use crate::outcome::MailOutcome;
use daemon_turn::TurnEnd;
use host_calls::{Sink, SinkFault};
use listing_text::{Cause, cause_line};
use std::alloc::Global;
use tool_output::{cause_of_end, say_cause};

// The name under which the program says its causes.
pub(crate) const MAIL_PROGRAM: &str = "atpost";

// Says how a session ended: one that was done has no line.
pub(crate) fn say_mail_end<E: Sink>(
    alloc: Global,
    end: &TurnEnd,
    err: &mut E,
) -> Result<(), SinkFault>
    ensures made_as { (E.outlet err.new).made_as ≡ (E.outlet err.old).made_as }
    ensures says { SaysMailEnd E.tells end.now
        (sink_at (E.content err.old) (E.outlet err.old)) (sink_at (E.content err.new) (E.outlet err.new)) result }
{
    let cause = cause_of_end(end);
    if cause.is_done() {
        return Ok(());
    }
    let line = cause_line(alloc, MAIL_PROGRAM, &cause)?;
    err.put(alloc, line.as_slice())
}

// What the program comes to by a session that ended so, and whose line answered this. None where a further one is made.
pub(crate) fn session_outcome(end: &TurnEnd, said: &Result<(), SinkFault>) -> Option<MailOutcome>
    ensures { result ≡ session_outcome end.now said.now }
{
    match said {
        Ok(()) => outcome_said(end),
        Err(SinkFault::Failed) => Some(outcome_cut(end)),
        Err(SinkFault::Memory) => outcome_unsaid(end),
    }
}

// The line was put: a damage ends the program.
fn outcome_said(end: &TurnEnd) -> Option<MailOutcome>
    ensures { result ≡ outcome_said end.now }
{
    match end {
        TurnEnd::Damaged(damage) => Some(MailOutcome::OfSession(Cause::Damaged(*damage))),
        TurnEnd::Done | TurnEnd::Busy | TurnEnd::FileFault | TurnEnd::Memory => None,
    }
}

// Its put failed: a damage comes before that.
fn outcome_cut(end: &TurnEnd) -> MailOutcome
    ensures { Some result ≡ outcome_cut end.now }
{
    match end {
        TurnEnd::Damaged(damage) => MailOutcome::OfSession(Cause::Damaged(*damage)),
        TurnEnd::Done | TurnEnd::Busy | TurnEnd::FileFault | TurnEnd::Memory => {
            MailOutcome::Own(Cause::OutputFault)
        }
    }
}

// It ran out of memory: that of an out-of-memory error may be missing.
fn outcome_unsaid(end: &TurnEnd) -> Option<MailOutcome>
    ensures { result ≡ outcome_unsaid end.now }
{
    match end {
        TurnEnd::Memory => None,
        TurnEnd::Done | TurnEnd::Busy | TurnEnd::FileFault | TurnEnd::Damaged(_) => {
            Some(MailOutcome::Own(Cause::Memory))
        }
    }
}

// Says the last line, and answers the cause. The line of a session was said after it.
pub(crate) fn say_mail_outcome<E: Sink>(alloc: Global, outcome: MailOutcome, err: &mut E) -> Cause
    ensures made_as { (E.outlet err.new).made_as ≡ (E.outlet err.old).made_as }
    ensures later { (E.outlet err.old).sink_faults ≤ (E.outlet err.new).sink_faults }
    ensures says { SaysMailOutcome E.tells outcome
        (sink_at (E.content err.old) (E.outlet err.old)) (sink_at (E.content err.new) (E.outlet err.new)) result }
{
    match outcome {
        MailOutcome::OfSession(cause) => cause,
        MailOutcome::Own(cause) => say_cause(alloc, MAIL_PROGRAM, cause, err),
    }
}
