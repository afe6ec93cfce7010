//! Steps that are made one after another.
ghost use Rattle.spool_store.specs.StepSequences.{IsChange, MakesSteps, MayMakeSteps};
ghost use Rattle.spool_store.specs.OneStep.{MakesStep, MayStep};

use crate::{Store, StoreFault};
use host_calls::Host;
use spool_model::Step;
use std::alloc::Global;

impl Store {
    /// Makes the steps, in order, and counts those that took effect. Each takes a job back, ends it, gives it up or
    /// forgets it.
    pub fn make_all<H: Host>(
        self,
        alloc: Global,
        host: &mut H,
        steps: &[Step],
        made: &mut usize,
    ) -> Result<Store, StoreFault>
        requires { MayMakeSteps H.tells (H.session host.old) (H.world host.old) self steps.now }
        ensures { MakesSteps H.tells (H.session host.old) (H.session host.new)
            (H.world host.old) (H.world host.new) self steps.now made.new result }
    {
        *made = 0;
        let mut store = self;
        for step in steps {
            store = store.make(alloc, host, step)?;
            *made += 1;
        }
        Ok(store)
    }

    fn make<H: Host>(self, alloc: Global, host: &mut H, step: &Step) -> Result<Store, StoreFault>
        requires may { MayStep H.tells (H.session host.old) (H.world host.old) self step.now }
        requires change { IsChange step.now }
        ensures makes { MakesStep H.tells (H.session host.old) (H.session host.new)
            (H.world host.old) (H.world host.new) self step.now result }
    {
        match step {
            Step::Remove(number) => self.remove(alloc, host, *number),
            Step::End(number, ending) => self.end(alloc, host, *number, *ending),
            Step::Interrupt(number) => self.interrupt(alloc, host, *number),
            Step::Forget(number) => self.forget(alloc, host, *number),
            Step::Draw => unreachable!(),
            Step::Accept(_, _) => unreachable!(),
            Step::Start(_, _) => unreachable!(),
        }
    }
}
