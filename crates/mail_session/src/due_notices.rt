//! What is due of the jobs that wait for their notices.
ghost use Rattle.std.specs.Prelude.{◌≡◌, ◌≢◌, Contains, IfNone, IfOk, IfSome, Some};
ghost use Rattle.std.specs.List.{filter_map};
ghost use Rattle.spool_model.specs.JobTable.{JobTable, entry_at};
ghost use Rattle.spool_model.specs.declared.decided.Decided.{Decided};
ghost use Rattle.spool_store.specs.Listed.{IsLive, ListsDecided};
ghost use Rattle.mail_session.specs.Steps.{due_by, due_of_entry};

use crate::NoticeDue;
use listing_text::TurnStepText;
use mail_notes::NotedJob;
use spool_model::{Decided, Fate};
use spool_store::Store;
use std::alloc::{AllocError, Global};

/// What is due of these jobs, in their order: nothing of those that are live.
pub fn dues_of(
    alloc: Global,
    store: &Store,
    jobs: &[NotedJob],
) -> Result<Vec<NoticeDue>, AllocError>
    ensures { IfOk result (λ due_notices. due_notices.items
        ≡ filter_map (λ job. due_of_entry job (entry_at store.now.table job.number)) jobs.now) }
{
    jobs.iter()
        .filter_map(|job| due_of_entry(store, job))
        .collect(alloc)
}

// What is due of a job; nothing where it is live.
fn due_of_entry(store: &Store, job: &NotedJob) -> Option<NoticeDue>
    ensures { result ≡ due_of_entry job.now (entry_at store.now.table job.now.number) }
{
    match store.row(job.number) {
        Some(_) => None,
        None => Some(due_after(store.decided(), job)),
    }
}

// What is due of a job that is not live.
fn due_after(decided: &[Decided], job: &NotedJob) -> NoticeDue
    ensures { (table : JobTable) → ListsDecided table decided.now → (IsLive table job.now.number → ⊥)
        → Some result ≡ due_of_entry job.now (entry_at table job.now.number) }
{
    match fate_of(decided, job.number) {
        Some(fate) => due_by(job, fate),
        None => NoticeDue::Drop(job.number),
    }
}

fn due_by(job: &NotedJob, fate: Fate) -> NoticeDue
    ensures { result ≡ due_by job.now fate }
{
    match fate {
        Fate::Finished(ending) => NoticeDue::Send(*job, TurnStepText::Ended(job.number, ending)),
        Fate::Interrupted => NoticeDue::Send(*job, TurnStepText::Interrupted(job.number)),
        Fate::Removed => NoticeDue::Drop(job.number),
    }
}

// What became of the job of the number, if it is among those that are done.
fn fate_of(decided: &[Decided], number: u32) -> Option<Fate>
    ensures some { IfSome result (λ fate. (done : Decided) × Contains decided.now done
        × (done.number ≡ number) × (done.fate ≡ fate)) }
    ensures none { IfNone result ((done : Decided) → Contains decided.now done → done.number ≢ number) }
{
    for done in decided {
        if done.number == number {
            return Some(done.fate);
        }
    }
    None
}
