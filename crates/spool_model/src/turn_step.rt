//! A step that a turn of the daemon made.
ghost use Rattle.std.specs.Prelude.{◌≡◌};
ghost use Rattle.spool_model.specs.StepsOf.{number_of_step, step_of};

use crate::Step;
use host_calls::Ending;

/// A step that a turn made.
#[derive(Clone, Copy, Debug, PartialEq, Eq)]
pub enum TurnStep {
    /// The job was started at this second, and its script started.
    HandedOver(u32, i64),
    /// The job ended so.
    Ended(u32, Ending),
    /// The running job was given up.
    Interrupted(u32),
    /// What became of the job is no longer kept.
    Forgotten(u32),
}

impl TurnStep {
    /// The step of the job table that it reports.
    pub fn step(&self) -> Step
        ensures { result ≡ step_of self.now }
    {
        match self {
            TurnStep::HandedOver(number, second) => Step::Start(*number, *second),
            TurnStep::Ended(number, ending) => Step::End(*number, *ending),
            TurnStep::Interrupted(number) => Step::Interrupt(*number),
            TurnStep::Forgotten(number) => Step::Forget(*number),
        }
    }

    /// The number of the job that the step is of.
    pub fn number(&self) -> u32
        ensures { result ≡ number_of_step self.now }
    {
        match self {
            TurnStep::HandedOver(number, _) => *number,
            TurnStep::Ended(number, _) => *number,
            TurnStep::Interrupted(number) => *number,
            TurnStep::Forgotten(number) => *number,
        }
    }
}
