//! The directory that is salvaged.
ghost use Rattle.std.specs.Prelude.{◌≡◌, IfErr, IfOk, IsSome, IsTrue, Some};
ghost use Rattle.std.specs.FinMap as map;
ghost use Rattle.host_calls.specs.Session.{CallsInside, IsInside};
ghost use Rattle.host_calls.specs.World.{reading};
ghost use Rattle.spool_faults.specs.Listed.{LeavesDirectory};
ghost use Rattle.spool_faults.specs.Plan.{IsPlanOf};
ghost use Rattle.spool_check.specs.Faults.{IsOfSource};

use crate::SalvageFault;
use crate::fault::of_source;
use host_calls::{Bytes, Host, Name};
use spool_faults::{Diagnosis, diagnose};
use std::alloc::Global;
use whole_file::whole;

// What is found in the directory, which is settled first.
pub(crate) fn diagnose_source<H: Host>(
    alloc: Global,
    from: &mut H,
) -> Result<Diagnosis, SalvageFault>
    requires { IsInside (H.session from.old) }
    ensures inside { CallsInside SalvageFault.FromFailed (H.session from.old) (H.session from.new) result }
    ensures of { IfErr result IsOfSource }
    ensures leaves { IsTrue H.tells → LeavesDirectory (H.world from.old) (H.world from.new) }
    ensures plan { IsTrue H.tells → IfOk result (λ diagnosis. IsPlanOf (reading (H.world from.old))
        diagnosis.plan.names.items diagnosis.plan.journal.items diagnosis.plan.sequence.items) }
{
    match diagnose(alloc, from) {
        Ok(diagnosis) => Ok(diagnosis),
        Err(fault) => Err(of_source(fault)),
    }
}

// All bytes of the named file, which exists.
pub(crate) fn bytes_of<H: Host>(
    alloc: Global,
    from: &mut H,
    name: &Name,
) -> Result<Bytes, SalvageFault>
    requires inside { IsInside (H.session from.old) }
    requires held { IsTrue H.tells → IsSome (map.get (reading (H.world from.old)) name.now) }
    ensures inside { CallsInside SalvageFault.FromFailed (H.session from.old) (H.session from.new) result }
    ensures of { IfErr result IsOfSource }
    ensures looks { IsTrue H.tells → H.world from.new ≡ H.world from.old }
    ensures content { IsTrue H.tells
        → IfOk result (λ bytes. map.get (reading (H.world from.old)) name.now ≡ Some bytes) }
{
    match whole(alloc, from, name) {
        Ok(bytes) => Ok(bytes),
        Err(fault) => Err(of_source(fault)),
    }
}
