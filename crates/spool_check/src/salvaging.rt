//! Salvaging a directory.
ghost use Rattle.std.specs.Prelude.{◌≡◌, false, Err, IsTrue, OnOk};
ghost use Rattle.host_calls.specs.Session.{CallsInside, IsInside};
ghost use Rattle.host_calls.specs.World.{reading};
ghost use Rattle.spool_faults.specs.Listed.{LeavesDirectory};
ghost use Rattle.spool_check.specs.SalvageOutcome.{HasSalvage, IsTargetRefused, IsSalvaging, is_spool};
ghost use Rattle.whole_file.specs.Others.{ChangesFiles};

use crate::SalvageFault;
use crate::filling::fill_target;
use crate::source::diagnose_source;
use host_calls::Host;
use std::alloc::Global;

/// Writes what is saved of the one directory into the other, which has no file of a spool. Both are settled first, and the
/// one that is salvaged stays as it is.
pub fn salvage<H: Host, G: Host>(
    alloc: Global,
    from: &mut H,
    to: &mut G,
) -> Result<(), SalvageFault>
    requires inside_from { IsInside (H.session from.old) }
    requires inside_to { IsInside (G.session to.old) }
    ensures from { CallsInside SalvageFault.FromFailed (H.session from.old) (H.session from.new) result }
    ensures to { CallsInside SalvageFault.ToFailed (G.session to.old) (G.session to.new) result }
    ensures leaves { IsTrue H.tells → LeavesDirectory (H.world from.old) (H.world from.new) }
    ensures refused { IsTrue G.tells → result ≡ Err SalvageFault.NotEmpty
        → IsTargetRefused (G.world to.old) (G.world to.new) }
    ensures empty { IsTrue G.tells → OnOk result (is_spool (reading (G.world to.old)) ≡ false) }
    ensures files { IsTrue H.tells → IsTrue G.tells
        → ChangesFiles (IsSalvaging (reading (H.world from.old)) (G.world to.old).now.directory)
        (G.world to.old) (G.world to.new) }
    ensures salvaged { IsTrue H.tells → IsTrue G.tells
        → OnOk result (HasSalvage (reading (H.world from.old)) (G.world to.old).now.directory (G.world to.new).now.directory) }
{
    let diagnosis = diagnose_source(alloc, from)?;
    fill_target(alloc, from, to, &diagnosis.plan)
}
