//! The job table.
ghost use Rattle.std.specs.Prelude.{◌≡◌, ◌↔◌, ◌≤◌, OnOk, OnErr, IsTrue, IsSome};
ghost use Rattle.std.specs.Option.{option_copied};
ghost use Rattle.spool_model.specs.JobTable.{new_table, entry_at, IsPending, IsRunning, IsDone, IsDrawn};
ghost use Rattle.spool_model.specs.Steps.{IsFree, IsLegal, after_step, is_batch_entry, last_batch_after};

use crate::entries::JobEntries;
use crate::{Entry, Fate, Job, LAST_NUMBER, State, Step, is_batch};
use std::alloc::{AllocError, Global};
use std::marker::Model;

/// The executable model of the job table, which tests and definitions compute with: the store keeps more.
///
/// It has the number that was drawn last, each job by its number, and the second of the last start in a
/// batch queue.
#[derive(Drop)]
pub struct Table {
    last: u32,
    entries: JobEntries,
    last_batch: Option<i64>,
}

impl Model for Table {
    ghost use Rattle.spool_model.specs.JobTable.{JobTable, IsSound, table_of};
    ghost use Rattle.spool_model.specs.Codes.{table_code};

    ghost Value = { JobTable };

    ghost coded = { table_code };

    ghost view = { λ table. table_of table.last table.entries table.last_batch };

    ghost invariant = { λ table. IsSound (table_of table.last table.entries table.last_batch) };
}

impl Table {
    /// The table before the first job.
    pub fn new(alloc: Global) -> Table
        ensures { result ≡ new_table }
    {
        Table {
            last: 0,
            entries: JobEntries::new(alloc),
            last_batch: None,
        }
    }

    /// The number that was drawn last, 0 before the first.
    pub fn last(&self) -> u32
        ensures last { result ≡ self.now.last }
        ensures few { result ≤ LAST_NUMBER }
    {
        self.last
    }

    /// The entry under the number, if there is one: a number without one was not accepted, or was forgotten.
    pub fn entry(&self, number: u32) -> Option<&Entry>
        ensures entry { option_copied result ≡ entry_at self.now number }
        ensures drawn { IsSome result → IsDrawn self.now number }
    {
        self.entries.get(number)
    }

    /// The second of the last start in a batch queue, if there was one.
    pub fn last_batch(&self) -> Option<i64>
        ensures { result ≡ self.now.last_batch }
    {
        self.last_batch
    }

    /// Whether the step may be taken.
    pub fn is_legal(&self, step: &Step) -> bool
        ensures { IsTrue result ↔ IsLegal self.now step.now }
    {
        match step {
            Step::Draw => self.last < LAST_NUMBER,
            Step::Accept(number, _) => {
                *number == self.last && *number >= 1 && self.entry(*number).is_none()
            }
            Step::Remove(number) => self.is_pending(*number),
            Step::Start(number, _) => self.is_pending(*number),
            Step::End(number, _) => self.is_running(*number),
            Step::Interrupt(number) => self.is_running(*number),
            Step::Forget(number) => self.is_done(*number),
        }
    }

    /// Takes the step. Where memory runs out the table stays as it is.
    pub fn take(&mut self, alloc: Global, step: &Step) -> Result<(), AllocError>
        requires { IsLegal self.old step.now }
        ensures taken { OnOk result (self.new ≡ after_step self.old step.now) }
        ensures kept { OnErr result (self.new ≡ self.old) }
    {
        match step {
            Step::Draw => self.last += 1,
            Step::Accept(number, job) => self.accept(alloc, *number, job)?,
            Step::Remove(number) => self.entries.decide(*number, Fate::Removed),
            Step::Start(number, second) => self.start(*number, *second),
            Step::End(number, ending) => self.entries.decide(*number, Fate::Finished(*ending)),
            Step::Interrupt(number) => self.entries.decide(*number, Fate::Interrupted),
            Step::Forget(number) => self.entries.remove(*number),
        }
        Ok(())
    }

    fn accept(&mut self, alloc: Global, number: u32, job: &Job) -> Result<(), AllocError>
        requires { IsFree self.old number }
        ensures taken { OnOk result (self.new ≡ after_step self.old (Step.Accept number job.now)) }
        ensures kept { OnErr result (self.new ≡ self.old) }
    {
        let job = job.copied(alloc)?;
        self.entries
            .insert(number, Entry::Live(job, State::Pending))?;
        Ok(())
    }

    fn start(&mut self, number: u32, second: i64)
        requires { IsPending self.old number }
        ensures { self.new ≡ after_step self.old (Step.Start number second) }
    {
        let last_batch = self.last_batch_after(number, second);
        self.entries.set_state(number, State::Running(second));
        self.last_batch = last_batch;
    }

    // The second of the last batch start once this job has started.
    fn last_batch_after(&self, number: u32, second: i64) -> Option<i64>
        ensures { result ≡ last_batch_after self.now (Step.Start number second) }
    {
        if self.is_in_batch_queue(number) {
            Some(second)
        } else {
            self.last_batch
        }
    }

    fn is_in_batch_queue(&self, number: u32) -> bool
        ensures { result ≡ is_batch_entry (entry_at self.now number) }
    {
        match self.entry(number) {
            Some(Entry::Live(job, _)) => is_batch(job.queue),
            _ => false,
        }
    }

    fn is_pending(&self, number: u32) -> bool
        ensures { IsTrue result ↔ IsPending self.now number }
    {
        matches!(self.entry(number), Some(Entry::Live(_, State::Pending)))
    }

    fn is_running(&self, number: u32) -> bool
        ensures { IsTrue result ↔ IsRunning self.now number }
    {
        matches!(self.entry(number), Some(Entry::Live(_, State::Running(_))))
    }

    fn is_done(&self, number: u32) -> bool
        ensures { IsTrue result ↔ IsDone self.now number }
    {
        matches!(self.entry(number), Some(Entry::Done(_)))
    }
}
