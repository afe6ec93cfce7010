//! The table that marks and files show, in its lists.
ghost use Rattle.std.specs.Prelude.{◌≡◌, ◌<◌, ◌*◌, ◌^◌, ℕ, IfOk, IsTrue, MatchResult, length};
ghost use Rattle.spool_shows.specs.Shown.{damage_of_jobs};
ghost use Rattle.start_journal.specs.Journals.{AreWritable, are_drawn};
ghost use Rattle.host_calls.specs.StoreFaults.{IsFound};
ghost use Rattle.start_journal.specs.Lifecycles.{TellLifecycles};
ghost use Rattle.spool_store.specs.inside.ScannedJobs.{files_scanned};
ghost use Rattle.spool_store.specs.inside.Tables.{AreUndecided, IsTableShown, ListsDrawn, ListsTable};

use crate::StoreFault;
use crate::job_rows::rows_in_order;
use crate::jobs::Jobs;
use crate::scanned_job::ScannedJob;
use crate::starts::starts_fault;
use spool_model::{Decided, Row};
use start_journal::{Lifecycles, Mark, last_batch};
use std::alloc::Global;

// The rows and the finished numbers of the table that the marks and the files show, or their first
// damage.
pub(crate) fn listed(
    alloc: Global,
    last: u32,
    marks: &[Mark],
    lives: &Lifecycles,
    scanned: &[ScannedJob],
) -> Result<(Vec<Row>, Vec<Decided>), StoreFault>
    requires known { TellLifecycles marks.now lives.now }
    requires fits { 32 * length marks.now < 2 ^ 64 }
    ensures table { MatchResult result
        (λ lists. ListsTable last marks.now (files_scanned scanned.now) lists.0.items lists.1.items)
        (IsFound (damage_of_jobs last marks.now (files_scanned scanned.now))) }
    ensures drawn { AreUndecided marks.now (files_scanned scanned.now) → AreWritable marks.now
        → IsTrue (are_drawn last marks.now) → IfOk result (λ lists. ListsDrawn last lists.0.items lists.1.items) }
{
    let rows = rows_in_order(alloc, last, lives, scanned)?;
    if let Some(damage) = starts_fault(marks, lives, rows.as_slice()) {
        return Err(StoreFault::Damaged(damage));
    }
    let decided = lives.decided(alloc)?;
    Ok((rows, decided))
}

// The jobs that the marks and the files show, without scripts, or their first damage.
pub(crate) fn jobs_shown(
    alloc: Global,
    last: u32,
    marks: &[Mark],
    lives: &Lifecycles,
    scanned: &[ScannedJob],
) -> Result<Jobs, StoreFault>
    requires known { TellLifecycles marks.now lives.now }
    requires undecided { AreUndecided marks.now (files_scanned scanned.now) }
    requires writable { AreWritable marks.now }
    requires drawn { IsTrue (are_drawn last marks.now) }
    requires fits { 32 * length marks.now < 2 ^ 64 }
    ensures { MatchResult result
        (IsTableShown last marks.now (files_scanned scanned.now))
        (IsFound (damage_of_jobs last marks.now (files_scanned scanned.now))) }
{
    let (rows, decided) = listed(alloc, last, marks, lives, scanned)?;
    let jobs = Jobs::of(alloc, last, last_batch(marks), rows, decided)?;
    Ok(jobs)
}
