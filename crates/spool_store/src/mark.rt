//! One more mark in the journal, and the file of a job that it decides.
ghost use Rattle.std.specs.Prelude.{◌≡◌, ◌≤◌, [], ◌∷◌, ℕ, List, false, IfOk, IsTrue, OnOk};
ghost use Rattle.host_calls.specs.Session.{CallsInside, IsInside};
ghost use Rattle.spool_model.specs.declared.step.Step.{Step};
ghost use Rattle.spool_model.specs.JobTable.{JobTable};
ghost use Rattle.spool_model.specs.Steps.{after_step};
ghost use Rattle.start_journal.specs.JournalChange.{added};
ghost use Rattle.start_journal.specs.Marks.{AreLegalMarks, IsLegalAfter};
ghost use Rattle.start_journal.specs.Slots.{IsWritable};
ghost use Rattle.whole_file.specs.Others.{ChangesFiles};
ghost use Rattle.step_runs.specs.Calls.{IsSteppingOn, StoreCall};
ghost use Rattle.step_runs.specs.Current.{IsCurrent};
ghost use Rattle.spool_store.specs.inside.JournalMark.{IsDecisionOf, IsMarkOf, IsMarkDurable, KeepsFiles, kept_by, kept_with};
ghost use Rattle.spool_store.specs.OneStep.{needs_room, with_room};

use host_calls::{Host, HostFault, Name};
use start_journal::{Journal, Mark};
use std::alloc::{AllocError, Global};
use whole_file::clear;

// Adds the mark. Where no slot is free, or the journal wants compaction, it syncs the names and compacts the journal first.
pub(crate) fn add_mark<H: Host>(
    alloc: Global,
    host: &mut H,
    journal: Journal,
    mark: Mark,
) -> Result<Journal, HostFault>
    requires inside { IsInside (H.session host.old) }
    requires writable { IsWritable mark }
    requires legal { IsLegalAfter journal.marks mark }
    requires current { IsTrue H.tells → (old_form : List ℕ) × (table : JobTable)
        × (step : Step) × IsMarkOf old_form journal (H.world host.old).now.directory table step mark }
    ensures inside { CallsInside HostFault.Failed (H.session host.old) (H.session host.new) result }
    ensures legal { AreLegalMarks journal.marks }
    ensures journal { IfOk result (λ new. new ≡ added (with_room journal) mark) }
    ensures files { IsTrue H.tells → (old_form : List ℕ) (table : JobTable) (step : Step)
        → IsMarkOf old_form journal (H.world host.old).now.directory table step mark
        → ChangesFiles (IsSteppingOn table (step ∷ []) (H.world host.old).now.directory)
        (H.world host.old) (H.world host.new) }
    ensures marked { IsTrue H.tells → (old_form : List ℕ) (table : JobTable) (step : Step)
        → IsMarkOf old_form journal (H.world host.old).now.directory table step mark
        → IfOk result (λ new. IsMarkDurable journal.marks new (H.world host.new).now.directory (after_step table step)) }
    ensures others { IsTrue H.tells
        → OnOk result (KeepsFiles (H.world host.old).now.directory (H.world host.new).now.directory) }
{
    let journal = with_free_slot(alloc, host, journal)?;
    journal.add(alloc, host, mark)
}

// Whether the journal is compacted before a mark is added.
fn needs_room(alloc: Global, journal: &Journal) -> Result<bool, AllocError>
    ensures { IfOk result (λ needs. needs ≡ needs_room journal.now) }
{
    if journal.free() == 0 {
        return Ok(true);
    }
    journal.wants_compaction(alloc)
}

// A journal with a free slot, of which what counts is not less than half.
fn with_free_slot<H: Host>(
    alloc: Global,
    host: &mut H,
    journal: Journal,
) -> Result<Journal, HostFault>
    requires inside { IsInside (H.session host.old) }
    requires current { IsTrue H.tells → (old_form : List ℕ) × (table : JobTable)
        × IsCurrent (kept_with old_form journal table) (H.world host.old).now.directory table }
    ensures inside { CallsInside HostFault.Failed (H.session host.old) (H.session host.new) result }
    ensures room { IfOk result (λ new. 1 ≤ new.free) }
    ensures journal { IfOk result (λ new. new ≡ with_room journal) }
    ensures untouched { needs_room journal ≡ false → host.new ≡ host.old }
    ensures legal { AreLegalMarks journal.marks }
    ensures files { IsTrue H.tells → (old_form : List ℕ) (table : JobTable)
        → IsCurrent (kept_with old_form journal table) (H.world host.old).now.directory table
        → ChangesFiles (IsSteppingOn table [] (H.world host.old).now.directory) (H.world host.old) (H.world host.new) }
    ensures current { IsTrue H.tells → (old_form : List ℕ) (table : JobTable)
        → IsCurrent (kept_with old_form journal table) (H.world host.old).now.directory table
        → IfOk result (λ new. IsCurrent (kept_with old_form new table) (H.world host.new).now.directory table) }
    ensures others { IsTrue H.tells
        → OnOk result (KeepsFiles (H.world host.old).now.directory (H.world host.new).now.directory) }
{
    if !needs_room(alloc, &journal)? {
        return Ok(journal);
    }
    // A compaction forgets which numbers are done with. So no crash may bring a file of theirs back.
    host.sync_names(alloc)?;
    journal.compact(alloc, host)
}

// Adds the mark that decides a job, and then removes the job's file.
pub(crate) fn decide_job<H: Host>(
    alloc: Global,
    host: &mut H,
    journal: Journal,
    mark: Mark,
    file: &Name,
) -> Result<Journal, HostFault>
    requires inside { IsInside (H.session host.old) }
    requires writable { IsWritable mark }
    requires legal { IsLegalAfter journal.marks mark }
    requires current { IsTrue H.tells → (old_form : List ℕ) × (table : JobTable)
        × (step : Step) × IsDecisionOf old_form journal (H.world host.old).now.directory table step mark file.now }
    ensures inside { CallsInside HostFault.Failed (H.session host.old) (H.session host.new) result }
    ensures legal { AreLegalMarks journal.marks }
    ensures journal { IfOk result (λ new. new ≡ added (with_room journal) mark) }
    ensures files { IsTrue H.tells → (old_form : List ℕ) (table : JobTable) (step : Step)
        → IsDecisionOf old_form journal (H.world host.old).now.directory table step mark file.now
        → StoreCall table (step ∷ []) (H.world host.old) (H.world host.new)
        (kept_by old_form (after_step table step) result) }
{
    let journal = add_mark(alloc, host, journal, mark)?;
    clear(alloc, host, &[*file])?;
    Ok(journal)
}
