//! The faults of a directory, and what is to be written for what is saved of it, by one look.
ghost use Rattle.std.specs.Prelude.{◌≡◌, IfOk, IsTrue};
ghost use Rattle.host_calls.specs.Session.{CallsInside, IsInside};
ghost use Rattle.host_calls.specs.World.{reading};
ghost use Rattle.spool_faults.specs.Faults.{faults_of};
ghost use Rattle.spool_faults.specs.Listed.{LeavesDirectory};
ghost use Rattle.spool_faults.specs.Plan.{IsPlanOf};

use crate::FaultList;
use crate::plan::{SalvagePlan, plan_of};
use crate::scan::scan_spool;
use host_calls::{Host, HostFault};
use std::alloc::Global;

/// The faults of a directory, and what is to be written for what is saved of it.
#[derive(Drop)]
pub struct Diagnosis {
    pub faults: FaultList,
    pub plan: SalvagePlan,
}

/// The faults of the directory, which is settled first, and what is to be written for what is saved of it. Nothing is
/// changed.
pub fn diagnose<H: Host>(alloc: Global, host: &mut H) -> Result<Diagnosis, HostFault>
    requires { IsInside (H.session host.old) }
    ensures inside { CallsInside HostFault.Failed (H.session host.old) (H.session host.new) result }
    ensures leaves { IsTrue H.tells → LeavesDirectory (H.world host.old) (H.world host.new) }
    ensures faults { IsTrue H.tells → IfOk result (λ diagnosis. diagnosis.faults ≡ faults_of
        (reading (H.world host.old))) }
    ensures plan { IsTrue H.tells → IfOk result (λ diagnosis. IsPlanOf (reading (H.world host.old))
        diagnosis.plan.names.items diagnosis.plan.journal.items diagnosis.plan.sequence.items) }
{
    host.settle(alloc)?;
    let mut faults = Vec::new(alloc);
    let scan = scan_spool(alloc, host, &mut faults)?;
    let plan = plan_of(alloc, &scan, faults.as_slice())?;
    Ok(Diagnosis {
        faults: FaultList { faults },
        plan,
    })
}
