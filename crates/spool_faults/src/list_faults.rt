//! Listing the faults of a directory.
ghost use Rattle.std.specs.Prelude.{◌≡◌, IfOk, IsTrue};
ghost use Rattle.host_calls.specs.Session.{CallsInside, IsInside};
ghost use Rattle.host_calls.specs.World.{reading};
ghost use Rattle.spool_faults.specs.Faults.{faults_of};
ghost use Rattle.spool_faults.specs.Listed.{LeavesDirectory};

use crate::FaultList;
use crate::scan::scan_spool;
use host_calls::{Host, HostFault};
use std::alloc::Global;

/// All faults of the directory, which is settled first: of the sequence file, of the journal, of the files of jobs in
/// byte order of their names, and of starts. Nothing is changed. The directory is listed once, and
/// at most 60 bytes of each job's file are read.
pub fn faults<H: Host>(alloc: Global, host: &mut H) -> Result<FaultList, HostFault>
    requires { IsInside (H.session host.old) }
    ensures inside { CallsInside HostFault.Failed (H.session host.old) (H.session host.new) result }
    ensures leaves { IsTrue H.tells → LeavesDirectory (H.world host.old) (H.world host.new) }
    ensures listed { IsTrue H.tells → IfOk result (λ list. list ≡ faults_of (reading (H.world host.old))) }
{
    host.settle(alloc)?;
    let mut faults = Vec::new(alloc);
    scan_spool(alloc, host, &mut faults)?;
    Ok(FaultList { faults })
}
