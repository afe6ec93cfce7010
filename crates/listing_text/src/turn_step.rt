//! What the daemon prints of a turn.
ghost use Rattle.std.specs.Prelude.{◌≡◌, IfOk};
ghost use Rattle.listing_text.specs.Lines.{turn_line_of};

use host_calls::{Bytes, Ending};
use std::alloc::{AllocError, Global};
use std::fmt;

/// A step of a turn that is printed, with the number of its job.
#[derive(Clone, Copy)]
pub enum TurnStepText {
    /// The job's script was started.
    HandedOver(u32),
    /// The job ended so.
    Ended(u32, Ending),
    /// The job was found running, and no child of the daemon runs it.
    Interrupted(u32),
}

impl fmt::Display for TurnStepText {
    ghost use Rattle.std.specs.Prelude.{Some};
    ghost use Rattle.listing_text.specs.Lines.{turn_text};

    ghost output = { λ step. Some (turn_text step) };

    fn fmt<W: fmt::Write>(&self, f: &mut fmt::Formatter<W>) -> fmt::Result {
        match self {
            TurnStepText::HandedOver(number) => write!(f, "job {number} handed over"),
            TurnStepText::Ended(number, ending) => match ending {
                Ending::Exit(code) => write!(f, "job {number} exit {code}"),
                Ending::Signal(signal) => write!(f, "job {number} signal {signal}"),
                Ending::NotStarted => write!(f, "job {number} not started"),
            },
            TurnStepText::Interrupted(number) => write!(f, "job {number} interrupted"),
        }
    }
}

/// The line of a step.
pub fn turn_line(alloc: Global, step: &TurnStepText) -> Result<Bytes, AllocError>
    ensures { IfOk result (λ line. line ≡ turn_line_of step.now) }
{
    let line = format!(in alloc; "{step}\n")?;
    Ok(Bytes::from(line.into_bytes()))
}
