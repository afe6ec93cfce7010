//! The two lines of the pending jobs.
ghost use Rattle.std.specs.Prelude.{◌≡◌, ◌++◌, ◌∷◌, [], List, OnOk, OnErr, IfOk};
ghost use Rattle.spool_model.specs.declared.row.Row.{Row};
ghost use Rattle.queue_rules.specs.TwoLines.{AreLinesOf};

use crate::due::{is_waiting_batch, is_waiting_job};
use crate::{Due, DueLine};
use spool_model::Row;
use std::alloc::{AllocError, Global};

/// The line of the pending jobs outside the batch queues, and that of those in them.
#[derive(Drop)]
pub struct Lines {
    pub jobs: DueLine,
    pub batch: DueLine,
}

impl Lines {
    /// The lines of these rows.
    pub fn of(alloc: Global, rows: &[Row]) -> Result<Lines, AllocError>
        ensures { IfOk result (AreLinesOf rows.now) }
    {
        Ok(Lines {
            jobs: DueLine::of_jobs(alloc, rows)?,
            batch: DueLine::of_batch(alloc, rows)?,
        })
    }

    /// Another row. Where memory runs out nothing changes.
    pub fn add(&mut self, row: &Row) -> Result<(), AllocError>
        ensures added { OnOk result ((rows : List Row) → AreLinesOf rows self.old
            → AreLinesOf (rows ++ row.now ∷ []) self.new) }
        ensures kept { OnErr result (self.new ≡ self.old) }
    {
        if is_waiting_batch(row) {
            self.batch.add(Due::of(row))
        } else if is_waiting_job(row) {
            self.jobs.add(Due::of(row))
        } else {
            Ok(())
        }
    }

    /// A row less.
    pub fn take(&mut self, row: &Row)
        requires { (prefix : List Row) × (suffix : List Row) × AreLinesOf (prefix ++ row.now ∷ suffix) self.old }
        ensures { (prefix suffix : List Row) → AreLinesOf (prefix ++ row.now ∷ suffix) self.old
            → AreLinesOf (prefix ++ suffix) self.new }
    {
        if is_waiting_batch(row) {
            self.batch.take(Due::of(row));
        } else if is_waiting_job(row) {
            self.jobs.take(Due::of(row));
        }
    }
}
