//! Recovery: what a spool directory shows, once nothing in it can vanish any more.
ghost use Rattle.std.specs.Prelude.{◌≡◌, IfErr, IfOk, IsTrue};
ghost use Rattle.host_calls.specs.Session.{CallsInside, IsInside};
ghost use Rattle.host_calls.specs.World.{reading};
ghost use Rattle.whole_file.specs.Others.{ChangesFiles};
ghost use Rattle.step_runs.specs.Calls.{ShowsAsBefore};
ghost use Rattle.host_calls.specs.Damages.{IfDamaged};
ghost use Rattle.host_calls.specs.StoreFaults.{IsReadingFault};
ghost use Rattle.spool_store.specs.Recovery.{Recovered, ShowsAsBeforeNewFormNames};

use crate::directory_scan::{RecoveryScan, scan_directory};
use crate::{Store, StoreFault};
use host_calls::Host;
use std::alloc::Global;
use whole_file::clear;

impl Store {
    /// The store of a spool directory. The directory is settled first; then files that no longer count are removed.
    /// Damage is answered exactly where the directory shows it, and all reads as before then.
    pub fn recover<H: Host>(alloc: Global, host: &mut H) -> Result<Store, StoreFault>
        requires { IsInside (H.session host.old) }
        ensures inside { CallsInside StoreFault.FileFault (H.session host.old) (H.session host.new) result }
        ensures of_reading { IfErr result IsReadingFault }
        ensures files { IsTrue H.tells
            → ChangesFiles (ShowsAsBefore (H.world host.old).now.directory) (H.world host.old) (H.world host.new) }
        ensures recovered { IsTrue H.tells
            → Recovered (H.world host.old).now.directory (H.world host.new).now.directory result }
        ensures old_form { IsTrue H.tells → IfOk result
            (ShowsAsBeforeNewFormNames (H.world host.old).now.directory (H.world host.new).now.directory) }
        ensures untouched { IsTrue H.tells
            → IfDamaged StoreFault.Damaged (λ damage. reading (H.world host.new) ≡ reading (H.world host.old)) result }
    {
        // What others left unsynced could still vanish: only after this is the reading all that a crash leaves.
        host.settle(alloc)?;
        let RecoveryScan {
            jobs,
            journal,
            old_form,
            leftover,
        } = scan_directory(alloc, host)?;
        clear(alloc, host, leftover.as_slice())?;
        Ok(Store {
            jobs,
            journal,
            old_form,
        })
    }
}
