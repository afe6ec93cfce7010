//! The steps of a turn.
ghost use Rattle.std.specs.Prelude.{◌≡◌, []};

use crate::TurnStep;
use std::alloc::Global;
use std::marker::Model;

/// Steps that a turn made, in order.
#[derive(Drop)]
pub struct TurnSteps {
    steps: Vec<TurnStep>,
}

impl Model for TurnSteps {
    ghost use Rattle.std.specs.Prelude.{List};
    ghost use Rattle.std.specs.Coded.{coded_list};
    ghost use Rattle.spool_model.specs.contracts.turn_step.TurnStep as turn_step;
    ghost use Rattle.spool_model.specs.declared.turn_step.TurnStep.{TurnStep};

    ghost Value = { List TurnStep };

    ghost coded = { coded_list turn_step.the_row.coded };

    ghost view = { λ steps. steps.steps.items };
}

impl TurnSteps {
    /// No steps. It takes no memory.
    pub fn new(alloc: Global) -> TurnSteps
        ensures { result ≡ [] }
    {
        TurnSteps {
            steps: Vec::new(alloc),
        }
    }

    // These steps.
    pub(crate) fn from(steps: Vec<TurnStep>) -> TurnSteps
        ensures { result ≡ steps.items }
    {
        TurnSteps { steps }
    }

    /// The steps.
    pub fn as_slice(&self) -> &[TurnStep]
        ensures { result.now ≡ self.now }
    {
        self.steps.as_slice()
    }
}
