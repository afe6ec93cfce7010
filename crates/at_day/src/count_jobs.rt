//! What a spool directory counts.
ghost use Rattle.std.specs.Prelude.{◌≡◌, ◌<◌, ◌^◌, count_by, length};
ghost use Rattle.host_calls.specs.Session.{IsInside, IsOutside, StaysInside};
ghost use Rattle.step_runs.specs.Attempts.{IsUnbegun};
ghost use Rattle.memory_host.specs.Host.{memory_session, memory_world};
ghost use Rattle.at_day.specs.JobCounts.{CountsBy, IsTableCounted, is_running_row, is_waiting_row, was_finished, was_interrupted, was_not_started, was_removed};

use crate::Counts;
use host_calls::{Ending, EnterFault, in_session};
use memory_host::MemoryHost;
use spool_model::{Decided, Fate, Row, State};
use spool_store::{Store, StoreFault};
use std::alloc::Global;

/// What a recovery of the directory counts, in a session of its own.
pub fn counts(alloc: Global, host: &mut MemoryHost) -> Result<Counts, StoreFault>
    requires { IsOutside (memory_session host.old) }
    ensures { IsTableCounted host.old host.new result }
{
    match in_session(alloc, host, &mut |host| counted_within(alloc, host)) {
        Ok(counted) => counted,
        Err(EnterFault::Taken) => Err(StoreFault::FileFault),
        Err(EnterFault::Failed) => Err(StoreFault::FileFault),
        Err(EnterFault::Memory) => Err(StoreFault::Memory),
    }
}

// The same within a session.
fn counted_within(alloc: Global, host: &mut MemoryHost) -> Result<Counts, StoreFault>
    requires { IsInside (memory_session host.old) }
    ensures stays { StaysInside (memory_session host.old) (memory_session host.new) }
    ensures unbegun { IsUnbegun (memory_world host.old) (memory_world host.new) }
    ensures asked { (memory_world host.new).asked ≡ (memory_world host.old).asked }
    ensures counts { CountsBy (memory_session host.old) (memory_session host.new) (memory_world host.old) result }
{
    let store = Store::recover(alloc, host)?;
    let rows = store.rows();
    let decided = store.decided();
    Ok(Counts {
        last: store.last(),
        pending: waiting(rows) as u32,
        running: running(rows) as u32,
        removed: removed(decided) as u32,
        finished: finished(decided) as u32,
        not_started: not_started(decided) as u32,
        interrupted: interrupted_count(decided) as u32,
    })
}

fn waiting(rows: &[Row]) -> usize
    ensures { result ≡ count_by is_waiting_row rows.now }
{
    rows.iter()
        .filter(|row| matches!(row.state, State::Pending))
        .count()
}

fn running(rows: &[Row]) -> usize
    ensures { result ≡ count_by is_running_row rows.now }
{
    rows.iter()
        .filter(|row| matches!(row.state, State::Running(_)))
        .count()
}

fn removed(decided: &[Decided]) -> usize
    ensures { result ≡ count_by (λ one. was_removed one.fate) decided.now }
{
    decided
        .iter()
        .filter(|one| matches!(one.fate, Fate::Removed))
        .count()
}

fn finished(decided: &[Decided]) -> usize
    ensures { result ≡ count_by (λ one. was_finished one.fate) decided.now }
{
    decided
        .iter()
        .filter(|one| {
            matches!(
                one.fate,
                Fate::Finished(Ending::Exit(_)) | Fate::Finished(Ending::Signal(_))
            )
        })
        .count()
}

fn not_started(decided: &[Decided]) -> usize
    ensures { result ≡ count_by (λ one. was_not_started one.fate) decided.now }
{
    decided
        .iter()
        .filter(|one| matches!(one.fate, Fate::Finished(Ending::NotStarted)))
        .count()
}

fn interrupted_count(decided: &[Decided]) -> usize
    ensures { result ≡ count_by (λ one. was_interrupted one.fate) decided.now }
{
    decided
        .iter()
        .filter(|one| matches!(one.fate, Fate::Interrupted))
        .count()
}
