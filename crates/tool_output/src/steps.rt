//! The lines of the steps of a turn.
ghost use Rattle.std.specs.Prelude.{◌≡◌};
ghost use Rattle.tool_output.specs.Sinks.{sink_at};
ghost use Rattle.listing_text.specs.Lines.{turn_line_of};
ghost use Rattle.tool_output.specs.PutLines.{PutsLines};
ghost use Rattle.tool_output.specs.Steps.{step_line};

use crate::PrintedLine;
use host_calls::{Sink, SinkFault};
use listing_text::{TurnStepText, turn_line};
use spool_model::TurnStep;
use std::alloc::Global;

impl PrintedLine for TurnStep {
    ghost line = { step_line };

    // What is forgotten has no line.
    fn put<O: Sink>(&self, alloc: Global, out: &mut O) -> Result<(), SinkFault> {
        match self {
            TurnStep::HandedOver(number, _) => {
                print(alloc, &TurnStepText::HandedOver(*number), out)
            }
            TurnStep::Ended(number, ending) => print(
                alloc,
                &TurnStepText::Ended(*number, *ending),
                out,
            ),
            TurnStep::Interrupted(number) => print(alloc, &TurnStepText::Interrupted(*number), out),
            TurnStep::Forgotten(_) => Ok(()),
        }
    }
}

// Puts the line of what a step did.
fn print<O: Sink>(alloc: Global, step: &TurnStepText, out: &mut O) -> Result<(), SinkFault>
    ensures made_as { (O.outlet out.new).made_as ≡ (O.outlet out.old).made_as }
    ensures puts { PutsLines O.tells (turn_line_of step.now)
        (sink_at (O.content out.old) (O.outlet out.old)) (sink_at (O.content out.new) (O.outlet out.new)) result }
{
    let line = turn_line(alloc, step)?;
    out.put(alloc, line.as_slice())
}
