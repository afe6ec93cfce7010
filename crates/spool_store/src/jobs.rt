//! What a store keeps of its jobs.
ghost use Rattle.host_calls.specs.ClockRange.{IsClockSecond};
ghost use Rattle.queue_rules.specs.Dues.{IsLineOf};
ghost use Rattle.queue_rules.specs.Order.{is_ready_batch, is_ready_job};
ghost use Rattle.spool_model.specs.Lists.{live_rows};
ghost use Rattle.std.specs.Prelude.{◌≡◌, ◌↔◌, IfOk, OnOk, OnErr, IsTrue, IfSome, IfNone, Some, map, if◌then◌else◌};
ghost use Rattle.spool_model.specs.declared.entry.Entry.TheVariants.{Live};
ghost use Rattle.spool_model.specs.declared.state.State.TheVariants.{Pending};
ghost use Rattle.spool_model.specs.declared.step.Step.TheVariants.{Draw, Accept, Start, Forget};
ghost use Rattle.spool_model.specs.JobTable.{entry_at, is_batch_queue, IsDone};
ghost use Rattle.spool_model.specs.Steps.{IsFree, IsLegal, after_step};
ghost use Rattle.spool_shows.specs.FateSteps.{decision};
ghost use Rattle.spool_store.specs.Listed.{AreListed, IsLive, ListsDecided, ListsLive, row_job};
ghost use Rattle.spool_store.specs.Rows.{decided_entry, listed_table, row_entry};

use crate::sorted;
use queue_rules::{Due, Lines};
use spool_model::{Decided, Fate, Row, is_batch};
use std::alloc::{AllocError, Global};
use std::marker::Model;

// The job table without scripts: the last number, the rows of the live jobs and the finished
// numbers, both in the order of their numbers, and the second of the last batch start. The lines are
// those of the rows that are pending.
#[derive(Drop)]
pub(crate) struct Jobs {
    last: u32,
    last_batch: Option<i64>,
    rows: Vec<Row>,
    decided: Vec<Decided>,
    lines: Lines,
}

impl Model for Jobs {
    ghost use Rattle.spool_model.specs.Codes.{table_code};
    ghost use Rattle.spool_model.specs.JobTable.{JobTable};
    ghost use Rattle.spool_store.specs.Rows.{listed_table};
    ghost use Rattle.spool_store.specs.inside.Lined.{AreRowsKept};

    ghost Value = { JobTable };

    ghost coded = { table_code };

    ghost view = { λ jobs. listed_table jobs.last jobs.rows.items jobs.decided.items jobs.last_batch };

    ghost invariant = { λ jobs. AreRowsKept jobs.last jobs.rows.items jobs.decided.items jobs.lines };
}

impl Jobs {
    // The jobs of these rows and finished numbers, both in the order of their numbers.
    pub(crate) fn of(
        alloc: Global,
        last: u32,
        last_batch: Option<i64>,
        rows: Vec<Row>,
        decided: Vec<Decided>,
    ) -> Result<Jobs, AllocError>
        requires { AreListed last (map row_entry rows.items) (map decided_entry decided.items) }
        ensures { IfOk result (λ jobs. jobs ≡ listed_table last rows.items decided.items last_batch) }
    {
        let lines = Lines::of(alloc, rows.as_slice())?;
        Ok(Jobs {
            last,
            last_batch,
            rows,
            decided,
            lines,
        })
    }

    // The number that was drawn last, 0 before the first.
    pub(crate) fn last(&self) -> u32
        ensures { result ≡ self.now.last }
    {
        self.last
    }

    // The second of the last start in a batch queue, if there was one.
    pub(crate) fn last_batch(&self) -> Option<i64>
        ensures { result ≡ self.now.last_batch }
    {
        self.last_batch
    }

    // The live jobs, by number.
    pub(crate) fn rows(&self) -> &[Row]
        ensures { ListsLive self.now result.now }
    {
        self.rows.as_slice()
    }

    // The jobs that are done, by number.
    pub(crate) fn decided(&self) -> &[Decided]
        ensures { ListsDecided self.now result.now }
    {
        self.decided.as_slice()
    }

    // The live job of this number.
    pub(crate) fn row(&self, number: u32) -> Option<&Row>
        ensures found { IfSome result (λ row. entry_at self.now number ≡ Some (row_entry row.now).1) }
        ensures number { IfSome result (λ row. row.now.number ≡ number) }
        ensures absent { IfNone result (IsLive self.now number → ⊥) }
    {
        let row = self.rows.get(sorted::row_place(&self.rows, number))?;
        if row.number == number {
            Some(row)
        } else {
            None
        }
    }

    // Whether the job of this number is done.
    pub(crate) fn is_decided(&self, number: u32) -> bool
        ensures { IsTrue result ↔ IsDone self.now number }
    {
        match self
            .decided
            .get(sorted::decided_place(&self.decided, number))
        {
            Some(done) => done.number == number,
            None => false,
        }
    }

    // The pending jobs outside the batch queues that are due, by minute, then number.
    pub(crate) fn due(&self, now: i64) -> &[Due]
        requires { IsClockSecond now }
        ensures { IsLineOf (is_ready_job now) (live_rows self.now) result.now }
    {
        self.lines.jobs.due(now)
    }

    // The pending jobs of the batch queues that are due, by minute, then number.
    pub(crate) fn due_batch(&self, now: i64) -> &[Due]
        requires { IsClockSecond now }
        ensures { IsLineOf (is_ready_batch now) (live_rows self.now) result.now }
    {
        self.lines.batch.due(now)
    }

    // Draws the next number.
    pub(crate) fn draw(&mut self)
        requires { IsLegal self.old Draw }
        ensures { self.new ≡ after_step self.old Draw }
    {
        self.last += 1;
    }

    // Accepts a pending job under the number that was drawn. Where memory runs out nothing
    // changes.
    // Room for the row comes first and the row last, so that a step that fails leaves the jobs as they were.
    pub(crate) fn accept(&mut self, row: Row) -> Result<(), AllocError>
        requires free { IsLegal self.old (Accept row.number (row_job row)) }
        requires pending { row.state ≡ Pending }
        ensures taken { OnOk result (self.new ≡ after_step self.old (Accept row.number (row_job row))) }
        ensures kept { OnErr result (self.new ≡ self.old) }
    {
        self.rows.reserve(1)?;
        self.lines.add(&row)?;
        self.rows.push_reserved(row);
        Ok(())
    }

    // Starts the pending job of this number at this second.
    pub(crate) fn start(&mut self, number: u32, second: i64)
        requires { IsLegal self.old (Start number second) }
        ensures { self.new ≡ after_step self.old (Start number second) }
    {
        let row = sorted::start_row(&mut self.rows, number, second);
        self.lines.take(&row);
        self.last_batch = last_batch_after(self.last_batch, row.queue, second);
    }

    // Forgets the fate of the job of this number, which is done.
    pub(crate) fn forget(&mut self, number: u32)
        requires { IsLegal self.old (Forget number) }
        ensures { self.new ≡ after_step self.old (Forget number) }
    {
        sorted::remove_decided(&mut self.decided, number);
    }

    // Puts the fate of the live job of this number in the place of its row. Where memory runs out nothing changes.
    pub(crate) fn decide(&mut self, number: u32, fate: Fate) -> Result<(), AllocError>
        requires { IsLive self.old number }
        ensures decided { OnOk result (self.new ≡ after_step self.old (decision number fate)) }
        ensures kept { OnErr result (self.new ≡ self.old) }
    {
        sorted::insert_decided(&mut self.decided, Decided { number, fate })?;
        let row = sorted::remove_row(&mut self.rows, number);
        self.lines.take(&row);
        Ok(())
    }
}

// The second of the last batch start once a job of this queue has started at this second.
fn last_batch_after(last_batch: Option<i64>, queue: u8, second: i64) -> Option<i64>
    ensures { result ≡ if is_batch_queue queue then Some second else last_batch }
{
    if is_batch(queue) {
        Some(second)
    } else {
        last_batch
    }
}
