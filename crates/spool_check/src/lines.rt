//! Telling the faults of a directory.
ghost use Rattle.std.specs.Prelude.{◌≡◌};
ghost use Rattle.tool_output.specs.PutLines.{PutsLines, joined_lines};
ghost use Rattle.tool_output.specs.Sinks.{sink_at};
ghost use Rattle.listing_text.specs.Cause.{fault_line_of};
ghost use Rattle.spool_check.specs.inside.CheckParts.{ReportsFaults};
ghost use Rattle.spool_check.specs.FaultLines.{cause_of_faults};

use host_calls::{Damage, Sink, SinkFault};
use listing_text::{Cause, fault_line};
use std::alloc::Global;
use tool_output::CommandError;

// Puts the line of each fault, and answers whether there is one.
pub(crate) fn report_faults<O: Sink>(
    alloc: Global,
    faults: &[Damage],
    out: &mut O,
) -> Result<Cause, CommandError>
    ensures made_as { (O.outlet out.new).made_as ≡ (O.outlet out.old).made_as }
    ensures tells { ReportsFaults O.tells faults.now
        (sink_at (O.content out.old) (O.outlet out.old)) (sink_at (O.content out.new) (O.outlet out.new)) result }
{
    put_faults(alloc, faults, out)?;
    Ok(verdict(faults))
}

fn verdict(faults: &[Damage]) -> Cause
    ensures { result ≡ cause_of_faults faults.now }
{
    if faults.is_empty() {
        Cause::Done
    } else {
        Cause::Faulty
    }
}

// Puts the lines of the faults, in order, up to one that could not be put.
fn put_faults<O: Sink>(alloc: Global, faults: &[Damage], out: &mut O) -> Result<(), SinkFault>
    ensures made_as { (O.outlet out.new).made_as ≡ (O.outlet out.old).made_as }
    ensures puts { PutsLines O.tells (joined_lines fault_line_of faults.now)
        (sink_at (O.content out.old) (O.outlet out.old)) (sink_at (O.content out.new) (O.outlet out.new)) result }
{
    for fault in faults {
        put_fault(alloc, fault, out)?;
    }
    Ok(())
}

fn put_fault<O: Sink>(alloc: Global, fault: &Damage, out: &mut O) -> Result<(), SinkFault>
    ensures made_as { (O.outlet out.new).made_as ≡ (O.outlet out.old).made_as }
    ensures puts { PutsLines O.tells (fault_line_of fault.now)
        (sink_at (O.content out.old) (O.outlet out.old)) (sink_at (O.content out.new) (O.outlet out.new)) result }
{
    let line = fault_line(alloc, fault)?;
    out.put(alloc, line.as_slice())
}
