//! What a command says to its caller.
ghost use Rattle.host_calls.specs.ClockRange.{IsClockMinute};
ghost use Rattle.std.specs.Prelude.{◌≡◌, IsTrue};
ghost use Rattle.civil_minute.specs.Zone.{IsReadable};
ghost use Rattle.host_calls.specs.Causes.{HasCause};
ghost use Rattle.command_rules.specs.Requested.{IsAcceptedLine};
ghost use Rattle.tool_output.specs.Sinks.{sink_at};
ghost use Rattle.at_commands.specs.inside.AcceptedLine.{SaysAccepted};

use civil_minute::{Zone, civil_of};
use host_calls::{Sink, SinkFault};
use listing_text::{accepted_line, date_text};
use std::alloc::Global;

// Puts the line of a job that was accepted.
pub(crate) fn say_accepted<E: Sink>(
    alloc: Global,
    number: u32,
    minute: u32,
    zone: &Zone,
    err: &mut E,
) -> Result<(), SinkFault>
    requires minute { IsClockMinute minute }
    requires zone { IsReadable zone.now }
    ensures made_as { (E.outlet err.new).made_as ≡ (E.outlet err.old).made_as }
    ensures cause { HasCause SinkFault.Failed (E.outlet err.old).sink_faults (E.outlet err.new).sink_faults result }
    ensures says { IsTrue E.tells → SaysAccepted (IsAcceptedLine number minute zone.now)
        (sink_at (E.content err.old) (E.outlet err.old)) (sink_at (E.content err.new) (E.outlet err.new)) result }
{
    let civil = civil_of(alloc, minute, zone)?;
    let line = accepted_line(alloc, number, &date_text(&civil))?;
    err.put(alloc, line.as_slice())
}
