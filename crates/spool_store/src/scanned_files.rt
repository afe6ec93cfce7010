//! What the scan has of the files that count, and the names of those that no longer count.
ghost use Rattle.std.specs.Prelude.{ℕ, List, Some, IfOk, OnOk, IsTrue, IsSome, if◌then◌else◌, take, nat_eq, ◌≡◌, ◌++◌, [], ◌∷◌};
ghost use Rattle.std.specs.FinMap as finite;
ghost use Rattle.host_calls.specs.Session.{CallsInside, IsInside};
ghost use Rattle.host_calls.specs.World.{reading};
ghost use Rattle.spool_shows.specs.JobFiles.{job_files};
ghost use Rattle.whole_file.specs.Temporary.{temporary_file};
ghost use Rattle.std.specs.Cmp.Lexicographic.{pointwise};
ghost use Rattle.start_journal.specs.declared.mark.Mark.{Mark};
ghost use Rattle.job_script.specs.declared.headers.TheConstants.{MAX_HEADER};
ghost use Rattle.start_journal.specs.Lifecycles.{TellLifecycles};
ghost use Rattle.spool_store.specs.inside.Scan.{AreScannedFiles, IsKind, is_left_over};
ghost use Rattle.spool_store.specs.inside.ScannedJobs.{files_scanned, old_form_numbers};
ghost use Rattle.spool_store.specs.inside.Tables.{AreUndecided};

use crate::scanned_job::ScannedJob;
use host_calls::{Bytes, Host, HostFault, Name};
use job_name::JobName;
use job_script::MAX_HEADER;
use start_journal::Lifecycles;
use std::alloc::{AllocError, Global};
use whole_file::temporary_name;

// What is found among the files of a directory.
#[derive(Drop)]
pub(crate) struct ScannedFiles {
    // The files of jobs that count.
    pub(crate) scanned: Vec<ScannedJob>,
    // The names of the files that no longer count.
    pub(crate) leftover: Vec<Name>,
}

impl ScannedFiles {
    // Puts one more file to those that count.
    fn add(&mut self, one: ScannedJob) -> Result<(), AllocError>
        ensures scanned { OnOk result (self.new.scanned.items ≡ self.old.scanned.items ++ one ∷ []) }
        ensures leftover { self.new.leftover.items ≡ self.old.leftover.items }
    {
        self.scanned.push(one)?;
        Ok(())
    }

    // Puts the name of one more file to those that no longer count.
    fn leave_over(&mut self, name: Name) -> Result<(), AllocError>
        ensures scanned { self.new.scanned.items ≡ self.old.scanned.items }
        ensures leftover { OnOk result (self.new.leftover.items ≡ self.old.leftover.items ++ name ∷ []) }
    {
        self.leftover.push(name)?;
        Ok(())
    }
}

// What a file is by its name.
#[derive(Clone, Copy)]
pub(crate) enum Kind {
    Counts(JobName),
    LeftOver,
    Other,
}

// What the scan has of the files of a directory.
pub(crate) fn scan_files<H: Host>(
    alloc: Global,
    host: &mut H,
    lives: &Lifecycles,
) -> Result<ScannedFiles, HostFault>
    requires { IsInside (H.session host.old) }
    ensures inside { CallsInside HostFault.Failed (H.session host.old) (H.session host.new) result }
    ensures looks { IsTrue H.tells → H.world host.new ≡ H.world host.old }
    ensures undecided { (marks : List Mark) → TellLifecycles marks lives.now
        → IfOk result (λ scanned_files. AreUndecided marks (files_scanned scanned_files.scanned.items)) }
    ensures scanned_files { IsTrue H.tells → (marks : List Mark) → TellLifecycles marks lives.now
        → IfOk result (AreScannedFiles marks (finite.entries (reading (H.world host.old)))) }
{
    let names = host.names(alloc)?;
    let mut scanned_files = ScannedFiles {
        scanned: Vec::new(alloc),
        leftover: Vec::new(alloc),
    };
    for name in &names {
        scan_file(alloc, host, lives, *name, &mut scanned_files)?;
    }
    Ok(scanned_files)
}

// Puts what is found of one more file to what it has.
fn scan_file<H: Host>(
    alloc: Global,
    host: &mut H,
    lives: &Lifecycles,
    name: Name,
    scanned_files: &mut ScannedFiles,
) -> Result<(), HostFault>
    requires inside { IsInside (H.session host.old) }
    requires held { IsTrue H.tells → IsSome (finite.get (reading (H.world host.old)) name) }
    ensures inside { CallsInside HostFault.Failed (H.session host.old) (H.session host.new) result }
    ensures looks { IsTrue H.tells → H.world host.new ≡ H.world host.old }
    ensures undecided { (marks : List Mark) → TellLifecycles marks lives.now
        → OnOk result (AreUndecided marks (files_scanned scanned_files.old.scanned.items)
        → AreUndecided marks (files_scanned scanned_files.new.scanned.items)) }
    ensures scanned { IsTrue H.tells → (marks : List Mark) (bytes : List ℕ) → TellLifecycles marks lives.now
        → finite.get (reading (H.world host.old)) name ≡ Some bytes
        → OnOk result (files_scanned scanned_files.new.scanned.items
        ≡ files_scanned scanned_files.old.scanned.items ++ job_files marks ((name, take MAX_HEADER bytes) ∷ [])) }
    ensures leftover { (marks : List Mark) → TellLifecycles marks lives.now
        → OnOk result (scanned_files.new.leftover.items
        ≡ scanned_files.old.leftover.items ++ (if is_left_over marks name then name ∷ [] else [])) }
{
    match kind_of_name(lives, name) {
        Kind::Counts(job) => {
            let prefix = Bytes::from(host.read(alloc, &name, 0, MAX_HEADER)?);
            scanned_files.add(ScannedJob { name, job, prefix })?;
        }
        Kind::LeftOver => scanned_files.leave_over(name)?,
        Kind::Other => {}
    }
    Ok(())
}

// The numbers of the files that have names in the old form.
pub(crate) fn old_form_numbers(
    alloc: Global,
    scanned: &[ScannedJob],
) -> Result<Vec<u32>, AllocError>
    ensures { IfOk result (λ numbers. numbers.items ≡ old_form_numbers (files_scanned scanned.now)) }
{
    let mut numbers = Vec::new(alloc);
    for file in scanned {
        if !file.job.new_form {
            numbers.push(file.job.number)?;
        }
    }
    Ok(numbers)
}

fn kind_of_name(lives: &Lifecycles, name: Name) -> Kind
    ensures { (marks : List Mark) → TellLifecycles marks lives.now → IsKind marks name result }
{
    match JobName::read(name.as_bytes()) {
        Some(job) if lives.get(job.number).fate.is_some() => Kind::LeftOver,
        Some(job) => Kind::Counts(job),
        None if is_temporary(name) => Kind::LeftOver,
        None => Kind::Other,
    }
}

fn is_temporary(name: Name) -> bool
    ensures { result ≡ pointwise nat_eq name temporary_file }
{
    name == temporary_name()
}
