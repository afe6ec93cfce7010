//! Steps that start nothing.
ghost use Rattle.std.specs.Prelude.{◌≡◌, IfOk};
ghost use Rattle.spool_store.specs.StepSequences.{MayMakeSteps};
ghost use Rattle.daemon_turn.specs.inside.MadeSteps.{MakesAll};
ghost use Rattle.spool_model.specs.StepsOf.{steps_of_turn};

use crate::{TurnStep, Turning};
use host_calls::Host;
use spool_model::Step;
use spool_store::{Store, StoreFault};
use std::alloc::{AllocError, Global};

impl Turning {
    // Makes the steps, in order, and records those that took effect.
    pub(crate) fn make_all<H: Host>(
        &mut self,
        alloc: Global,
        host: &mut H,
        store: Store,
        steps: &[TurnStep],
    ) -> Result<Store, StoreFault>
        requires { MayMakeSteps H.tells (H.session host.old) (H.world host.old) store (steps_of_turn steps.now) }
        ensures makes { MakesAll H.tells (H.session host.old) (H.session host.new)
            (H.world host.old) (H.world host.new) store steps.now self.old.steps.items self.new.steps.items result }
        ensures kids { self.new.kids ≡ self.old.kids }
    {
        let changes = steps_of(alloc, steps)?;
        let before = self.steps.len();
        // All are written down before the first is made, so that none is made that could not be.
        self.steps.extend_from_slice(steps)?;
        let mut made = 0;
        let outcome = store.make_all(alloc, host, changes.as_slice(), &mut made);
        self.steps.truncate(before + made);
        outcome
    }
}

// The steps of the job table that the steps of a turn report.
fn steps_of(alloc: Global, steps: &[TurnStep]) -> Result<Vec<Step>, AllocError>
    ensures { IfOk result (λ made. made.items ≡ steps_of_turn steps.now) }
{
    steps.iter().map(|step| step.step()).collect(alloc)
}
