//! Jobs are started one after another.
ghost use Rattle.host_calls.specs.ClockRange.{IsClockSecond};
ghost use Rattle.std.specs.Prelude.{[], ◌∷◌};
ghost use Rattle.spool_model.specs.declared.step.Step.TheVariants.{Start};
ghost use Rattle.spool_store.specs.OneStep.{MayStep};
ghost use Rattle.daemon_turn.specs.inside.TurnParts.{MayMakePart};
ghost use Rattle.daemon_turn.specs.inside.StartedJobs.{Launches};
ghost use Rattle.daemon_turn.specs.inside.PendingNumbers.{ArePendingNumbers};

use crate::job_start::start_job;
use crate::{Kid, TurnStep, Turning};
use host_calls::{Ending, Host};
use spool_store::{Store, StoreFault};
use std::alloc::Global;

impl Turning {
    // Starts the jobs of the numbers, in order, and records each step once it took effect. The child of a start is a
    // child.
    pub(crate) fn start_all<H: Host>(
        &mut self,
        alloc: Global,
        host: &mut H,
        store: Store,
        numbers: &[u32],
        second: i64,
    ) -> Result<Store, StoreFault>
        requires may { MayMakePart H.tells (H.session host.old) (H.world host.old) store }
        requires waiting { ArePendingNumbers store.table numbers.now }
        requires second { IsClockSecond second }
        ensures { Launches H.tells (H.session host.old) (H.session host.new) (H.world host.old) (H.world host.new)
            store numbers.now second self.old.kids.items self.new.kids.items
            self.old.steps.items self.new.steps.items result }
    {
        let mut store = store;
        for number in numbers {
            store = self.start(alloc, host, store, *number, second)?;
        }
        Ok(store)
    }

    // Starts one job. One that the host could not start is done at once.
    fn start<H: Host>(
        &mut self,
        alloc: Global,
        host: &mut H,
        store: Store,
        number: u32,
        second: i64,
    ) -> Result<Store, StoreFault>
        requires may { MayStep H.tells (H.session host.old) (H.world host.old) store (Start number second) }
        requires second { IsClockSecond second }
        ensures { Launches H.tells (H.session host.old) (H.session host.new)
            (H.world host.old) (H.world host.new) store (number ∷ []) second
            self.old.kids.items self.new.kids.items self.old.steps.items self.new.steps.items result }
    {
        self.kids.reserve(1)?;
        self.steps.reserve(1)?;
        let (store, child) = start_job(alloc, host, store, number, second)?;
        self.steps
            .push_reserved(TurnStep::HandedOver(number, second));
        match child {
            Some(child) => {
                self.kids.push_reserved(Kid { number, child });
                Ok(store)
            }
            None => {
                let ended = [TurnStep::Ended(number, Ending::NotStarted)];
                self.make_all(alloc, host, store, &ended)
            }
        }
    }
}
