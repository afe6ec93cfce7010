//! The scan of a settled directory, which changes nothing.
ghost use Rattle.std.specs.Prelude.{◌≡◌, Err, IfOk, IfErr, IsTrue};
ghost use Rattle.host_calls.specs.Session.{CallsInside, IsInside};
ghost use Rattle.host_calls.specs.World.{reading};
ghost use Rattle.spool_shows.specs.Shown.{shown_by};
ghost use Rattle.host_calls.specs.Damages.{IfDamaged};
ghost use Rattle.host_calls.specs.StoreFaults.{IsReadingFault};
ghost use Rattle.spool_store.specs.inside.Scan.{IsScan};
ghost use Rattle.spool_store.specs.Stored.{IsStored};

use crate::StoreFault;
use crate::jobs::Jobs;
use crate::scanned_files::{ScannedFiles, old_form_numbers, scan_files};
use crate::tables::jobs_shown;
use host_calls::{Host, Name};
use sequence_file::last;
use start_journal::Journal;
use std::alloc::Global;

// What is read of a directory that shows a table.
#[derive(Drop)]
pub(crate) struct RecoveryScan {
    pub(crate) jobs: Jobs,
    pub(crate) journal: Journal,
    /// The numbers of the files that count and have names in the old form.
    pub(crate) old_form: Vec<u32>,
    /// The names of the files that no longer count.
    pub(crate) leftover: Vec<Name>,
}

// The table that the directory shows, with its journal and the names of the files that no longer count.
pub(crate) fn scan_directory<H: Host>(
    alloc: Global,
    host: &mut H,
) -> Result<RecoveryScan, StoreFault>
    requires { IsInside (H.session host.old) }
    ensures inside { CallsInside StoreFault.FileFault (H.session host.old) (H.session host.new) result }
    ensures of_reading { IfErr result IsReadingFault }
    ensures looks { IsTrue H.tells → H.world host.new ≡ H.world host.old }
    ensures stored { IfOk result (λ scan. IsStored
        (record { table = scan.jobs; journal = scan.journal; old_form = scan.old_form.items })) }
    ensures shown { IsTrue H.tells → IfOk result (IsScan (reading (H.world host.old))) }
    ensures damaged { IsTrue H.tells
        → IfDamaged StoreFault.Damaged (λ damage. shown_by (reading (H.world host.old)) ≡ Err damage) result }
{
    let number = last(alloc, host)?;
    let (journal, lives) = Journal::recall_with_lives(alloc, host, number)?;
    let ScannedFiles { scanned, leftover } = scan_files(alloc, host, &lives)?;
    let jobs = jobs_shown(alloc, number, journal.marks(), &lives, scanned.as_slice())?;
    let old_form = old_form_numbers(alloc, scanned.as_slice())?;
    Ok(RecoveryScan {
        jobs,
        journal,
        old_form,
        leftover,
    })
}
