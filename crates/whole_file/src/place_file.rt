//! Replacing a file whole.
ghost use Rattle.std.specs.Prelude.{◌≢◌, IsTrue, OnOk};
ghost use Rattle.host_calls.specs.Directory.{IsInNoImage};
ghost use Rattle.host_calls.specs.Session.{CallsInside, IsInside};
ghost use Rattle.whole_file.specs.Others.{ChangesFiles};
ghost use Rattle.whole_file.specs.Placement.{IsPlacing, IsPlaced};

use host_calls::{Host, HostFault, Name};
use std::alloc::Global;

/// Gives the target these bytes, by way of the temporary name, so that a crash at any moment leaves
/// the target as it was or whole.
pub fn place<H: Host>(
    alloc: Global,
    host: &mut H,
    temp: &Name,
    target: &Name,
    bytes: &[u8],
) -> Result<(), HostFault>
    requires inside { IsInside (H.session host.old) }
    requires differ { temp.now ≢ target.now }
    requires no_temp { IsTrue H.tells → IsInNoImage (H.world host.old).now.directory temp.now }
    ensures inside { CallsInside HostFault.Failed (H.session host.old) (H.session host.new) result }
    ensures files { IsTrue H.tells
        → ChangesFiles (IsPlacing temp.now target.now bytes.now (H.world host.old).now.directory)
        (H.world host.old) (H.world host.new) }
    ensures placed { IsTrue H.tells
        → OnOk result (IsPlaced temp.now target.now bytes.now
        (H.world host.old).now.directory (H.world host.new).now.directory) }
{
    host.create(alloc, temp, bytes)?;
    // Bytes that are not synced yet could be at the target after a crash.
    host.sync(alloc, temp)?;
    host.rename(alloc, temp, target)?;
    // Until the names are durable, a crash could still take the new file back.
    host.sync_names(alloc)
}
