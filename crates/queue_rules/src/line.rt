//! A line of due jobs.
ghost use Rattle.std.specs.Prelude.{◌≡◌, ◌≤◌, ◌∷◌, true, false, OnOk, OnErr, IfOk, IsPermutation, Contains, filter, length, map};
ghost use Rattle.std.specs.List.Sorted.{IsPartitionPoint};
ghost use Rattle.spool_model.specs.declared.row.Row.{Row};
ghost use Rattle.queue_rules.specs.Dues.{AreInLine, IsLineOf, due_of_row, is_due_before, is_due_at, is_waiting_batch, is_waiting_job};

use crate::Due;
use crate::due::{is_waiting_batch, is_waiting_job};
use spool_model::Row;
use std::alloc::{AllocError, Global};
use std::marker::Model;

/// Jobs in order of minute, then number: seen as the list of them.
#[derive(Drop)]
pub struct DueLine {
    due_jobs: Vec<Due>,
}

impl Model for DueLine {
    ghost use Rattle.std.specs.Prelude.{List};
    ghost use Rattle.std.specs.Coded.{coded_list};
    ghost use Rattle.queue_rules.specs.contracts.due.Due as due;
    ghost use Rattle.queue_rules.specs.declared.due.Due.{Due};
    ghost use Rattle.queue_rules.specs.Dues.{AreInLine};

    ghost Value = { List Due };

    ghost coded = { coded_list due.the_row.coded };

    ghost view = { λ line. line.due_jobs.items };

    ghost invariant = { λ line. AreInLine line.due_jobs.items };
}

impl DueLine {
    /// The line of the pending rows outside the batch queues.
    pub fn of_jobs(alloc: Global, rows: &[Row]) -> Result<DueLine, AllocError>
        ensures { IfOk result (IsLineOf is_waiting_job rows.now) }
    {
        Ok(DueLine::sorted(waiting_jobs(alloc, rows)?))
    }

    /// The line of the pending rows of the batch queues.
    pub fn of_batch(alloc: Global, rows: &[Row]) -> Result<DueLine, AllocError>
        ensures { IfOk result (IsLineOf is_waiting_batch rows.now) }
    {
        Ok(DueLine::sorted(waiting_batch(alloc, rows)?))
    }

    // These jobs in order.
    fn sorted(mut due_jobs: Vec<Due>) -> DueLine
        ensures same { IsPermutation due_jobs.items result }
        ensures in_line { AreInLine result }
    {
        due_jobs.sort_unstable_by_key(|due| (due.minute, due.number));
        DueLine { due_jobs }
    }

    /// Puts the job in its place. Where memory runs out nothing changes.
    pub fn add(&mut self, due: Due) -> Result<(), AllocError>
        ensures added { OnOk result (IsPermutation (due ∷ self.old) self.new) }
        ensures kept { OnErr result (self.new ≡ self.old) }
        ensures in_line { AreInLine self.new }
    {
        let place = place_in_line(&self.due_jobs, due);
        self.due_jobs.insert(place, due)?;
        Ok(())
    }

    /// Takes the job out.
    pub fn take(&mut self, due: Due)
        requires { Contains self.old due }
        ensures taken { IsPermutation self.old (due ∷ self.new) }
        ensures in_line { AreInLine self.new }
    {
        let place = place_in_line(&self.due_jobs, due);
        self.due_jobs.remove(place);
    }

    /// The jobs whose minute has begun.
    pub fn due(&self, now: i64) -> &[Due]
        ensures { result.now ≡ filter (is_due_at now) self.now }
    {
        let count = self.due_jobs.partition_point(|due| due.is_due_at(now));
        &self.due_jobs[..count]
    }
}

// How many jobs of the line come before this one: its place.
fn place_in_line(due_jobs: &[Due], due: Due) -> usize
    requires { AreInLine due_jobs.now }
    ensures bound { result ≤ length due_jobs.now }
    ensures place { IsPartitionPoint (λ other. is_due_before other due ≡ true)
        (λ other. is_due_before other due ≡ false)
        due_jobs.now result }
{
    due_jobs.partition_point(|other| other.is_before(&due))
}

// The pending rows outside the batch queues.
fn waiting_jobs(alloc: Global, rows: &[Row]) -> Result<Vec<Due>, AllocError>
    ensures { IfOk result (λ due_jobs. due_jobs.items ≡ map due_of_row (filter is_waiting_job rows.now)) }
{
    rows.iter()
        .filter(|row| is_waiting_job(row))
        .map(Due::of)
        .collect(alloc)
}

// The pending rows of the batch queues.
fn waiting_batch(alloc: Global, rows: &[Row]) -> Result<Vec<Due>, AllocError>
    ensures { IfOk result (λ due_jobs. due_jobs.items ≡ map due_of_row (filter is_waiting_batch rows.now)) }
{
    rows.iter()
        .filter(|row| is_waiting_batch(row))
        .map(Due::of)
        .collect(alloc)
}
