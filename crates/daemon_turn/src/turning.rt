//! A turn under way, within its session.
ghost use Rattle.host_calls.specs.ClockRange.{IsClockSecond};
ghost use Rattle.std.specs.Prelude.{◌≡◌, [], List};
ghost use Rattle.host_calls.specs.Session.{IsInside};
ghost use Rattle.spool_model.specs.JobTable.{entry_at};
ghost use Rattle.daemon_turn.specs.Decisions.{asked_kids, interrupts, is_running_entry};
ghost use Rattle.daemon_turn.specs.Kids.{AreKidsByNumber, AreChildren};
ghost use Rattle.daemon_turn.specs.StartOrder.{IsOrder, Turn, turn_of};
ghost use Rattle.daemon_turn.specs.declared.kid.Kid.{Kid};
ghost use Rattle.daemon_turn.specs.inside.Decisions.{MayDecide};
ghost use Rattle.daemon_turn.specs.inside.Turned.{MakesTurn};
ghost use Rattle.daemon_turn.specs.inside.PendingNumbers.{ArePendingNumbers};
ghost use Rattle.daemon_turn.specs.inside.TurnWork.{TurnsOn, TurnWorks};

use crate::forget::forgotten_steps;
use crate::kids::sort_kids;
use crate::plan::{TurnPlan, turn_plan};
use crate::{Kid, TurnInput, TurnStep};
use host_calls::Host;
use spool_model::State;
use spool_store::{Store, StoreFault};
use std::alloc::Global;

// A turn under way: its children, and the steps that took effect so far. Room for a step is taken before it is made,
// so that none is made that could not be written down. The store goes from call to call: one that fails keeps it.
#[derive(Drop)]
pub(crate) struct Turning {
    pub(crate) kids: Vec<Kid>,
    pub(crate) steps: Vec<TurnStep>,
}

impl Turning {
    // Recovers the store, drops the children whose job doesn't run, and makes the steps of the turn.
    pub(crate) fn work<H: Host>(
        &mut self,
        alloc: Global,
        host: &mut H,
        limit: u32,
        interval: u32,
        at: TurnInput,
    ) -> Result<(), StoreFault>
        requires inside { IsInside (H.session host.old) }
        requires second { IsClockSecond at.now }
        requires ordered { AreKidsByNumber self.old.kids.items }
        requires children { AreChildren (H.session host.old).children self.old.kids.items }
        requires none { self.old.steps.items ≡ [] }
        ensures { TurnWorks H.tells (turn_of (record {
          kids = self.old.kids.items;
          limit = limit;
          interval = interval;
        }) at)
            (record {
              session = H.session host.old;
              world = H.world host.old;
              daemon = record { kids = self.old.kids.items; limit = limit; interval = interval };
            })
            (record {
              session = H.session host.new;
              world = H.world host.new;
              daemon = record { kids = self.new.kids.items; limit = limit; interval = interval };
            })
            self.new.steps.items result }
    {
        let store = Store::recover(alloc, host)?;
        // A child whose job was ended by a call that failed is found done here: its job is not ended twice.
        drop_gone(&mut self.kids, &store);
        self.turn_on(alloc, host, store, limit, interval, at)
    }

    // Makes the steps of the turn on a store that was recovered, with the children whose jobs run.
    fn turn_on<H: Host>(
        &mut self,
        alloc: Global,
        host: &mut H,
        store: Store,
        limit: u32,
        interval: u32,
        at: TurnInput,
    ) -> Result<(), StoreFault>
        requires may { MayDecide H.tells (H.session host.old) (H.world host.old) store self.old.kids.items }
        requires second { IsClockSecond at.now }
        requires none { self.old.steps.items ≡ [] }
        ensures { (before : List Kid) → self.old.kids.items ≡ asked_kids store.table before
            → TurnsOn H.tells (H.session host.old) (H.session host.new) (H.world host.old) (H.world host.new)
            store (turn_of (record { kids = before; limit = limit; interval = interval }) at)
            self.new.kids.items self.new.steps.items result }
    {
        let plan = turn_plan(alloc, &store, self.kids.as_slice(), limit, interval, at)?;
        let made = self.make_turn(alloc, host, store, &plan, at.now);
        sort_kids(&mut self.kids);
        made?;
        Ok(())
    }

    // Makes the steps of a turn, in order.
    fn make_turn<H: Host>(
        &mut self,
        alloc: Global,
        host: &mut H,
        store: Store,
        plan: &TurnPlan,
        second: i64,
    ) -> Result<Store, StoreFault>
        requires may { MayDecide H.tells (H.session host.old) (H.world host.old) store self.old.kids.items }
        requires interrupted { plan.now.interrupted.items ≡ interrupts store.table self.old.kids.items }
        requires waiting { ArePendingNumbers store.table plan.now.order.items }
        requires second { IsClockSecond second }
        requires none { self.old.steps.items ≡ [] }
        ensures { (turn : Turn) → turn.now ≡ second → self.old.kids.items ≡ asked_kids store.table turn.kids
            → IsOrder turn store.table plan.now.order.items
            → MakesTurn H.tells (H.session host.old) (H.session host.new) (H.world host.old) (H.world host.new)
            store turn self.new.kids.items self.new.steps.items result }
    {
        let store = self.decide(alloc, host, store, plan.interrupted.as_slice())?;
        // After this no job starts that the table of the recovery did not have ready.
        let store = self.start_all(alloc, host, store, plan.order.as_slice(), second)?;
        let forgotten = forgotten_steps(alloc, &store)?;
        self.make_all(alloc, host, store, forgotten.as_slice())
    }
}

// Drops the children whose job doesn't run.
fn drop_gone(kids: &mut Vec<Kid>, store: &Store)
    ensures { kids.new.items ≡ asked_kids store.now.table kids.old.items }
{
    kids.retain(|kid| is_running_number(store, kid.number));
}

// Whether the job of the number runs.
fn is_running_number(store: &Store, number: u32) -> bool
    ensures { result ≡ is_running_entry (entry_at store.now.table number) }
{
    match store.row(number) {
        Some(row) => matches!(row.state, State::Running(_)),
        None => false,
    }
}
