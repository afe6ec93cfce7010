//! Replacing a file whole where a call before may have been cut off.
ghost use Rattle.std.specs.Prelude.{◌≢◌, [], ◌∷◌, IsTrue, OnOk};
ghost use Rattle.host_calls.specs.Session.{CallsInside, IsInside};
ghost use Rattle.whole_file.specs.Removal.{IsClearing};
ghost use Rattle.whole_file.specs.Others.{ChangesFiles};
ghost use Rattle.whole_file.specs.Placement.{IsPlacing, IsPlaced};
ghost use Rattle.whole_file.specs.TempFiles.{IsDurableAt, IsWithout};

use crate::{clear, content, place};
use host_calls::{Host, HostFault, Name};
use std::alloc::Global;

/// Gives the target these bytes, as `place` does. What a call that was cut off left under the temporary name is removed
/// first.
pub fn replace<H: Host>(
    alloc: Global,
    host: &mut H,
    temp: &Name,
    target: &Name,
    bytes: &[u8],
) -> Result<(), HostFault>
    requires inside { IsInside (H.session host.old) }
    requires differ { temp.now ≢ target.now }
    requires durable { IsTrue H.tells → IsDurableAt temp.now (H.world host.old).now.directory }
    ensures inside { CallsInside HostFault.Failed (H.session host.old) (H.session host.new) result }
    ensures files { IsTrue H.tells
        → ChangesFiles (IsPlacing temp.now target.now bytes.now (H.world host.old).now.directory)
        (H.world host.old) (H.world host.new) }
    ensures placed { IsTrue H.tells
        → OnOk result (IsPlaced temp.now target.now bytes.now
        (H.world host.old).now.directory (H.world host.new).now.directory) }
{
    clear_left(alloc, host, temp)?;
    place(alloc, host, temp, target, bytes)
}

// Removes what was left under the name.
fn clear_left<H: Host>(alloc: Global, host: &mut H, name: &Name) -> Result<(), HostFault>
    requires inside { IsInside (H.session host.old) }
    requires durable { IsTrue H.tells → IsDurableAt name.now (H.world host.old).now.directory }
    ensures inside { CallsInside HostFault.Failed (H.session host.old) (H.session host.new) result }
    ensures files { IsTrue H.tells
        → ChangesFiles (IsClearing (name.now ∷ []) (H.world host.old).now.directory)
        (H.world host.old) (H.world host.new) }
    ensures gone { IsTrue H.tells
        → OnOk result (IsWithout name.now (H.world host.old).now.directory (H.world host.new).now.directory) }
{
    if content(alloc, host, name)?.is_none() {
        return Ok(());
    }
    clear(alloc, host, &[*name])
}
