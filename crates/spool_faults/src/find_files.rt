//! The files of jobs that count, by their names and first bytes.
ghost use Rattle.std.specs.Prelude.{◌≡◌, ◌++◌, ◌∷◌, [], ◌||◌, ℕ, List, Some, IfOk, IsSome, IsTrue, OnOk, map, take};
ghost use Rattle.std.specs.BTreeSet.{contains};
ghost use Rattle.std.specs.FinMap as finite;
ghost use Rattle.std.specs.Ordering.{nat_cmp};
ghost use Rattle.host_calls.specs.Session.{CallsInside, IsInside};
ghost use Rattle.host_calls.specs.World.{reading};
ghost use Rattle.job_name.specs.JobName.{job_named};
ghost use Rattle.job_script.specs.declared.headers.TheConstants.{MAX_HEADER};
ghost use Rattle.spool_faults.specs.inside.FoundFiles.{AreDecidedNumbers, IsCountedName, file_found, files_found, job_of_name, prefix_of};
ghost use Rattle.spool_shows.specs.JobFiles.{job_files};
ghost use Rattle.start_journal.specs.declared.mark.Mark.{Mark};
ghost use Rattle.start_journal.specs.Marks.{decides};

use crate::found_file::FoundFile;
use host_calls::{Bytes, Host, HostFault, Name};
use job_name::JobName;
use job_script::MAX_HEADER;
use start_journal::Mark;
use std::alloc::{AllocError, Global};
use std::collections::BTreeSet;

// The numbers that the marks decide.
pub(crate) fn decided(alloc: Global, marks: &[Mark]) -> Result<BTreeSet<u32>, AllocError>
    ensures { IfOk result (AreDecidedNumbers marks.now) }
{
    let mut decided = BTreeSet::new(alloc);
    for mark in marks {
        note_decided(&mut decided, *mark)?;
    }
    Ok(decided)
}

fn note_decided(decided: &mut BTreeSet<u32>, mark: Mark) -> Result<(), AllocError>
    ensures { OnOk result ((number : ℕ) → contains nat_cmp decided.new number
        ≡ (contains nat_cmp decided.old number || decides number mark)) }
{
    match mark {
        Mark::Removed(number) | Mark::Interrupted(number) | Mark::Ended { number, .. } => {
            decided.insert(number)?;
        }
        Mark::Started { .. } | Mark::Forgotten(_) | Mark::Batch(_) => {}
    }
    Ok(())
}

// The files of jobs whose numbers are not finished, among the names of all files.
pub(crate) fn find_files<H: Host>(
    alloc: Global,
    host: &mut H,
    names: &[Name],
    decided: &BTreeSet<u32>,
) -> Result<Vec<FoundFile>, HostFault>
    requires inside { IsInside (H.session host.old) }
    requires listed { IsTrue H.tells → names.now ≡ finite.keys (reading (H.world host.old)) }
    ensures inside { CallsInside HostFault.Failed (H.session host.old) (H.session host.new) result }
    ensures looks { IsTrue H.tells → H.world host.new ≡ H.world host.old }
    ensures found { IsTrue H.tells → (marks : List Mark) → AreDecidedNumbers marks decided.now
        → IfOk result (λ found. files_found found.items
        ≡ job_files marks (map prefix_of (finite.entries (reading (H.world host.old))))) }
{
    let mut found = Vec::new(alloc);
    for name in names {
        find_file(alloc, host, decided, *name, &mut found)?;
    }
    Ok(found)
}

// Puts the file to those that were found, if it counts.
fn find_file<H: Host>(
    alloc: Global,
    host: &mut H,
    decided: &BTreeSet<u32>,
    name: Name,
    found: &mut Vec<FoundFile>,
) -> Result<(), HostFault>
    requires inside { IsInside (H.session host.old) }
    requires held { IsTrue H.tells → IsSome (finite.get (reading (H.world host.old)) name) }
    ensures inside { CallsInside HostFault.Failed (H.session host.old) (H.session host.new) result }
    ensures looks { IsTrue H.tells → H.world host.new ≡ H.world host.old }
    ensures found { IsTrue H.tells → (marks : List Mark) (bytes : List ℕ) → AreDecidedNumbers marks decided.now
        → finite.get (reading (H.world host.old)) name ≡ Some bytes
        → OnOk result (files_found found.new.items
        ≡ files_found found.old.items ++ job_files marks ((name, take MAX_HEADER bytes) ∷ [])) }
{
    match counted_job(decided, name) {
        Some(job) => {
            let prefix = Bytes::from(host.read(alloc, &name, 0, MAX_HEADER)?);
            keep_file(found, FoundFile { name, job, prefix })?;
        }
        None => {}
    }
    Ok(())
}

fn keep_file(found: &mut Vec<FoundFile>, one: FoundFile) -> Result<(), AllocError>
    ensures { OnOk result (files_found found.new.items ≡ files_found found.old.items ++ file_found one ∷ []) }
{
    found.push(one)?;
    Ok(())
}

// The job of the name, if it is that of one whose number is not finished.
fn counted_job(decided: &BTreeSet<u32>, name: Name) -> Option<JobName>
    ensures { (marks : List Mark) → AreDecidedNumbers marks decided.now → IsCountedName marks name result }
{
    match JobName::read(name.as_bytes()) {
        Some(job) => undecided(decided, job),
        None => None,
    }
}

fn undecided(decided: &BTreeSet<u32>, job: JobName) -> Option<JobName>
    ensures { (marks : List Mark) (name : List ℕ) → AreDecidedNumbers marks decided.now
        → job_named name ≡ Some (job_of_name job) → IsCountedName marks name result }
{
    if decided.contains(&job.number) {
        None
    } else {
        Some(job)
    }
}
