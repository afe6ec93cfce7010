//! The lines of causes.
ghost use Rattle.std.specs.Prelude.{◌≡◌, ◌⊎◌, ◌≤◌};
ghost use Rattle.tool_output.specs.Sinks.{sink_at};
ghost use Rattle.tool_output.specs.Ends.{SaysEndOr, cause_of_end, finds_memory};
ghost use Rattle.tool_output.specs.SaidLines.{IsSaid};

use host_calls::{Sink, SinkFault, TurnEnd};
use listing_text::{Cause, cause_line};
use std::alloc::Global;

/// Puts the line of a cause, and answers it, or an out-of-memory error where the line found none. What was done has
/// no line.
pub fn say_cause<E: Sink>(alloc: Global, tool: &str, cause: Cause, err: &mut E) -> Cause
    ensures made_as { (E.outlet err.new).made_as ≡ (E.outlet err.old).made_as }
    ensures later { (E.outlet err.old).sink_faults ≤ (E.outlet err.new).sink_faults }
    ensures same_or_memory { (result ≡ cause) ⊎ (result ≡ Cause.Memory) }
    ensures said { IsSaid tool.now E.tells cause
        (sink_at (E.content err.old) (E.outlet err.old)) (sink_at (E.content err.new) (E.outlet err.new)) result }
{
    if cause.is_done() {
        return cause;
    }
    let line = match cause_line(alloc, tool, &cause) {
        Ok(line) => line,
        Err(_) => return Cause::Memory,
    };
    match err.put(alloc, line.as_slice()) {
        Ok(()) => cause,
        Err(SinkFault::Failed) => cause,
        Err(SinkFault::Memory) => Cause::Memory,
    }
}

/// Says how a turn ended, and answers whether its line found memory. That of an out-of-memory error may be missing.
pub fn say_end<E: Sink>(alloc: Global, tool: &str, end: &TurnEnd, err: &mut E) -> bool
    ensures made_as { (E.outlet err.new).made_as ≡ (E.outlet err.old).made_as }
    ensures later { (E.outlet err.old).sink_faults ≤ (E.outlet err.new).sink_faults }
    ensures says { SaysEndOr tool.now E.tells end.now
        (sink_at (E.content err.old) (E.outlet err.old)) (sink_at (E.content err.new) (E.outlet err.new)) result }
{
    let said = say_cause(alloc, tool, cause_of_end(end), err);
    finds_memory(end, &said)
}

// Whether the line of a turn's end found memory, by what it was said as. That of an out-of-memory error may be
// missing.
fn finds_memory(end: &TurnEnd, said: &Cause) -> bool
    ensures { result ≡ finds_memory end.now said.now }
{
    matches!(end, TurnEnd::Memory) || !matches!(said, Cause::Memory)
}

/// The end of a session, as the cause of a line.
pub fn cause_of_end(end: &TurnEnd) -> Cause
    ensures { result ≡ cause_of_end end.now }
{
    match end {
        TurnEnd::Done => Cause::Done,
        TurnEnd::Busy => Cause::Busy,
        TurnEnd::FileFault => Cause::FileFault,
        TurnEnd::Damaged(damage) => Cause::Damaged(*damage),
        TurnEnd::Memory => Cause::Memory,
    }
}
