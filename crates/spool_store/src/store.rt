//! The store: the jobs of a spool directory, and the journal that it has of them.
ghost use Rattle.std.specs.Prelude.{◌≡◌, IfNone, IfSome, IsTrue, Contains};
ghost use Rattle.host_calls.specs.ClockRange.{IsClockSecond};
ghost use Rattle.spool_model.specs.declared.row.Row.{Row};
ghost use Rattle.spool_model.specs.JobTable.{IsSound};
ghost use Rattle.spool_model.specs.Lists.{live_rows};
ghost use Rattle.queue_rules.specs.Order.{is_ready_batch, is_ready_job};
ghost use Rattle.queue_rules.specs.Dues.{IsLineOf};
ghost use Rattle.spool_store.specs.Listed.{IsLive, IsRowOf, ListsDecided, ListsLive};
ghost use Rattle.spool_store.specs.Stored.{IsRowInRange, IsStored};

use crate::Jobs;
use queue_rules::Due;
use spool_model::{Decided, Row};
use start_journal::Journal;
use std::marker::Model;

/// The jobs of a spool directory as they were at the last call: seen as the job table without scripts, the
/// journal, and the numbers whose files have names of the old form.
///
/// A store is current on a host where each image shows its table. Each call that changes the directory takes
/// the store, and hands a current one back only on Ok.
#[derive(Drop)]
pub struct Store {
    pub(crate) jobs: Jobs,
    pub(crate) journal: Journal,
    // Those that were found at the recovery: a new job never has one. In a spool of the new form it is empty.
    pub(crate) old_form: Vec<u32>,
}

impl Model for Store {
    ghost use Rattle.step_runs.specs.Current.{Kept};
    ghost use Rattle.step_runs.specs.Codes.{kept_code};
    ghost use Rattle.spool_store.specs.Stored.{IsStored};

    ghost Value = { Kept };

    ghost coded = { kept_code };

    ghost view = { λ store. record { table = store.jobs; journal = store.journal; old_form = store.old_form.items } };

    ghost invariant = { λ store. IsStored
        (record { table = store.jobs; journal = store.journal; old_form = store.old_form.items }) };
}

impl Store {
    /// The live jobs, by number.
    pub fn rows(&self) -> &[Row]
        ensures rows { ListsLive self.now.table result.now }
        ensures ranges { (row : Row) → Contains result.now row → IsRowInRange row }
    {
        self.jobs.rows()
    }

    /// The row of the live job of this number. None where no live job has the number.
    pub fn row(&self, number: u32) -> Option<&Row>
        ensures found { IfSome result (λ row. IsRowOf self.now.table number row.now) }
        ensures absent { IfNone result (IsLive self.now.table number → ⊥) }
    {
        self.jobs.row(number)
    }

    /// The jobs that are done and not forgotten, by number.
    pub fn decided(&self) -> &[Decided]
        ensures { ListsDecided self.now.table result.now }
    {
        self.jobs.decided()
    }

    /// The number that was drawn last, 0 before the first.
    pub fn last(&self) -> u32
        ensures last { result ≡ self.now.table.last }
        ensures sound { IsSound self.now.table }
    {
        self.jobs.last()
    }

    /// The second of the last start in a batch queue, if there was one.
    pub fn last_batch(&self) -> Option<i64>
        ensures last_batch { result ≡ self.now.table.last_batch }
        ensures range { IfSome result IsClockSecond }
    {
        self.jobs.last_batch()
    }

    /// The pending jobs outside the batch queues whose minute has begun, by minute, then number. It takes no
    /// memory.
    pub fn due(&self, now: i64) -> &[Due]
        requires { IsClockSecond now }
        ensures { IsLineOf (is_ready_job now) (live_rows self.now.table) result.now }
    {
        self.jobs.due(now)
    }

    /// The pending jobs of the batch queues whose minute has begun, by minute, then number. It takes no memory.
    pub fn due_batch(&self, now: i64) -> &[Due]
        requires { IsClockSecond now }
        ensures { IsLineOf (is_ready_batch now) (live_rows self.now.table) result.now }
    {
        self.jobs.due_batch(now)
    }
}
