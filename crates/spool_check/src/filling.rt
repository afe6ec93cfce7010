//! Filling the new directory.
ghost use Rattle.std.specs.Prelude.{◌≡◌, ◌≢◌, false, Err, IsTrue, OnOk};
ghost use Rattle.host_calls.specs.Session.{CallsInside, IsInside};
ghost use Rattle.host_calls.specs.World.{reading};
ghost use Rattle.spool_faults.specs.Plan.{IsPlanOf};
ghost use Rattle.spool_check.specs.inside.CopiedFiles.{IsBare};
ghost use Rattle.spool_check.specs.SalvageOutcome.{HasSalvage, IsTargetRefused, IsSalvaging, is_spool};
ghost use Rattle.whole_file.specs.Others.{ChangesFiles};

use crate::SalvageFault;
use crate::copying::copy_all;
use crate::target::{open_target, place_whole};
use host_calls::{Host, Name};
use sequence_file::sequence_name;
use spool_faults::SalvagePlan;
use start_journal::journal_name;
use std::alloc::Global;

/// Writes what is saved of the one directory into the other by a plan: the journal, a copy of each named file that is
/// a job's, and the sequence file last. The other directory is settled first, and refused where it has files of a
/// spool.
pub fn fill_target<H: Host, G: Host>(
    alloc: Global,
    from: &mut H,
    to: &mut G,
    plan: &SalvagePlan,
) -> Result<(), SalvageFault>
    requires inside_from { IsInside (H.session from.old) }
    requires inside_to { IsInside (G.session to.old) }
    requires plan { IsTrue H.tells → IsPlanOf (reading (H.world from.old))
        plan.now.names.items plan.now.journal.items plan.now.sequence.items }
    ensures from { CallsInside SalvageFault.FromFailed (H.session from.old) (H.session from.new) result }
    ensures to { CallsInside SalvageFault.ToFailed (G.session to.old) (G.session to.new) result }
    ensures looks { IsTrue H.tells → H.world from.new ≡ H.world from.old }
    ensures refused { IsTrue G.tells → result ≡ Err SalvageFault.NotEmpty
        → IsTargetRefused (G.world to.old) (G.world to.new) }
    ensures empty { IsTrue G.tells → OnOk result (is_spool (reading (G.world to.old)) ≡ false) }
    ensures files { IsTrue H.tells → IsTrue G.tells
        → ChangesFiles (IsSalvaging (reading (H.world from.old)) (G.world to.old).now.directory)
        (G.world to.old) (G.world to.new) }
    ensures salvaged { IsTrue H.tells → IsTrue G.tells
        → OnOk result (HasSalvage (reading (H.world from.old)) (G.world to.old).now.directory (G.world to.new).now.directory) }
{
    open_target(alloc, to)?;
    write_target(
        alloc,
        from,
        to,
        plan.names.as_slice(),
        plan.journal.as_slice(),
        plan.sequence.as_slice(),
    )
}

fn write_target<H: Host, G: Host>(
    alloc: Global,
    from: &mut H,
    to: &mut G,
    names: &[Name],
    journal: &[u8],
    sequence: &[u8],
) -> Result<(), SalvageFault>
    requires inside_from { IsInside (H.session from.old) }
    requires inside_to { IsInside (G.session to.old) }
    requires plan { IsTrue H.tells → IsPlanOf (reading (H.world from.old)) names.now journal.now sequence.now }
    requires bare { IsTrue G.tells → IsBare (G.world to.old).now.directory }
    ensures from { CallsInside SalvageFault.FromFailed (H.session from.old) (H.session from.new) result }
    ensures to { CallsInside SalvageFault.ToFailed (G.session to.old) (G.session to.new) result }
    ensures looks { IsTrue H.tells → H.world from.new ≡ H.world from.old }
    ensures other { result ≢ Err SalvageFault.NotEmpty }
    ensures files { IsTrue H.tells → IsTrue G.tells
        → ChangesFiles (IsSalvaging (reading (H.world from.old)) (G.world to.old).now.directory)
        (G.world to.old) (G.world to.new) }
    ensures salvaged { IsTrue H.tells → IsTrue G.tells
        → OnOk result (HasSalvage (reading (H.world from.old)) (G.world to.old).now.directory (G.world to.new).now.directory) }
{
    place_whole(alloc, to, &journal_name(), journal)?;
    copy_all(alloc, from, to, names)?;
    // Without a sequence file the directory shows no job, so nothing of it counts until all of it is there.
    place_whole(alloc, to, &sequence_name(), sequence)
}
