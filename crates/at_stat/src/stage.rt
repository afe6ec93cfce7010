//! How far the job of a number has come.
ghost use Rattle.std.specs.Prelude.{◌≡◌, map};
ghost use Rattle.at_stat.specs.Stages.{minute_of_job, stage_of_number};
ghost use Rattle.at_stat.specs.inside.StageSearch.{CanBeShown, IsDoneStage};
ghost use Rattle.spool_store.specs.Listed.{AreSortedEntries};
ghost use Rattle.spool_store.specs.Rows.{decided_entry};
ghost use Rattle.spool_store.specs.Stored.{IsRowInRange};

use crate::search::{fate_of_number, row_of};
use host_calls::minute_at;
use spool_model::{Decided, Fate, Row, State};
use spool_store::Store;

/// How far the job of a number has come.
#[derive(Clone, Copy)]
pub enum JobStage {
    /// It waits or runs.
    Live(Row),
    Done(Fate),
    /// The table has nothing of it.
    Forgotten,
}

/// How far the job of the number has come.
pub fn stage_of(store: &Store, number: u32) -> JobStage
    ensures stage { result ≡ stage_of_number store.now.table number }
    ensures shown { CanBeShown result }
{
    match row_of(store.rows(), number) {
        Some(row) => JobStage::Live(*row),
        None => done_stage(store.decided(), number),
    }
}

// The stage of a number that no live job has.
fn done_stage(decided: &[Decided], number: u32) -> JobStage
    requires { AreSortedEntries (map decided_entry decided.now) }
    ensures stage { IsDoneStage decided.now number result }
    ensures shown { CanBeShown result }
{
    match fate_of_number(decided, number) {
        Some(fate) => JobStage::Done(fate),
        None => JobStage::Forgotten,
    }
}

// The minute that the line of a live job shows: the one that it waits for, or that of its start.
pub(crate) fn shown_minute(row: &Row) -> u32
    requires { IsRowInRange row.now }
    ensures { result ≡ minute_of_job row.now.state row.now.minute }
{
    match row.state {
        State::Pending => row.minute,
        State::Running(second) => minute_at(second),
    }
}
