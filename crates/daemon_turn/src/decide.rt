//! What is finished of running jobs is made.
ghost use Rattle.std.specs.Prelude.{◌≡◌, []};
ghost use Rattle.daemon_turn.specs.Decisions.{interrupts};
ghost use Rattle.daemon_turn.specs.inside.Decisions.{Decides, MakesDecisions, MayDecide};

use crate::kids::drop_ended;
use crate::{TurnStep, Turning};
use host_calls::Host;
use spool_store::{Store, StoreFault};
use std::alloc::Global;

impl Turning {
    // Gives up the jobs that nobody watches, polls the children, ends the jobs of those that have ended, and drops
    // these children, as far as their ends are written down.
    pub(crate) fn decide<H: Host>(
        &mut self,
        alloc: Global,
        host: &mut H,
        store: Store,
        interrupted: &[TurnStep],
    ) -> Result<Store, StoreFault>
        requires may { MayDecide H.tells (H.session host.old) (H.world host.old) store self.old.kids.items }
        requires interrupted { interrupted.now ≡ interrupts store.table self.old.kids.items }
        requires none { self.old.steps.items ≡ [] }
        ensures { Decides H.tells (H.session host.old) (H.session host.new) (H.world host.old) (H.world host.new)
            store self.old.kids.items self.new.kids.items self.old.steps.items self.new.steps.items result }
    {
        let made = self.make_decisions(alloc, host, store, interrupted);
        let first = interrupted.len().min(self.steps.len());
        drop_ended(&mut self.kids, &self.steps[first..]);
        made
    }

    // Gives up the jobs that nobody watches, polls the children, and ends the jobs of those that have ended.
    fn make_decisions<H: Host>(
        &mut self,
        alloc: Global,
        host: &mut H,
        store: Store,
        interrupted: &[TurnStep],
    ) -> Result<Store, StoreFault>
        requires may { MayDecide H.tells (H.session host.old) (H.world host.old) store self.old.kids.items }
        requires interrupted { interrupted.now ≡ interrupts store.table self.old.kids.items }
        ensures made { MakesDecisions H.tells (H.session host.old) (H.session host.new)
            (H.world host.old) (H.world host.new) store self.old.kids.items
            self.old.steps.items self.new.steps.items result }
        ensures kids { self.new.kids ≡ self.old.kids }
    {
        let store = self.make_all(alloc, host, store, interrupted)?;
        let known = self.ask_all(alloc, host)?;
        self.make_all(alloc, host, store, known.as_slice())
    }
}
