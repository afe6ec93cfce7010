//! Removing files.
ghost use Rattle.std.specs.Prelude.{◌≡◌, ◌≢◌, [], IsTrue, OnOk};
ghost use Rattle.host_calls.specs.Session.{CallsInside, IsInside};
ghost use Rattle.host_calls.specs.World.{reading};
ghost use Rattle.whole_file.specs.Others.{ChangesFiles};
ghost use Rattle.whole_file.specs.Removal.{AreCleared, AreFiles, IsClearing};

use host_calls::{Host, HostFault, Name};
use std::alloc::Global;

/// Removes the named files, one by one, and syncs the directory. Nothing is done where there are none.
pub fn clear<H: Host>(alloc: Global, host: &mut H, names: &[Name]) -> Result<(), HostFault>
    requires inside { IsInside (H.session host.old) }
    requires held { IsTrue H.tells → AreFiles names.now (reading (H.world host.old)) }
    ensures inside { CallsInside HostFault.Failed (H.session host.old) (H.session host.new) result }
    ensures nothing { names.now ≡ [] → host.new ≡ host.old }
    ensures files { IsTrue H.tells
        → ChangesFiles (IsClearing names.now (H.world host.old).now.directory)
        (H.world host.old) (H.world host.new) }
    ensures cleared { IsTrue H.tells → names.now ≢ []
        → OnOk result (AreCleared names.now (H.world host.old).now.directory (H.world host.new).now.directory) }
{
    if names.is_empty() {
        return Ok(());
    }
    for name in names {
        host.remove(alloc, name)?;
    }
    // Until the names are durable, a crash could bring the files back.
    host.sync_names(alloc)
}
