//! Writing over a range of a file in place.
ghost use Rattle.std.specs.Prelude.{◌≡◌, IsTrue, OnOk, length};
ghost use Rattle.host_calls.specs.Session.{CallsInside, IsInside};
ghost use Rattle.host_calls.specs.World.{IsWithinFile, reading};
ghost use Rattle.whole_file.specs.Others.{ChangesFiles};
ghost use Rattle.start_journal.specs.inside.Overwrite.{IsDurableFile, IsOverwriting, IsOverwritten};

use host_calls::{Host, HostFault, Name};
use std::alloc::Global;

// Gives the range these bytes. Its file is durable before and after, and no name changes.
pub(crate) fn overwrite<H: Host>(
    alloc: Global,
    host: &mut H,
    name: &Name,
    offset: u64,
    bytes: &[u8],
) -> Result<(), HostFault>
    requires inside { IsInside (H.session host.old) }
    requires durable { IsTrue H.tells → IsDurableFile name.now (H.world host.old).now.directory }
    requires range { IsTrue H.tells → IsWithinFile (reading (H.world host.old)) name.now offset (length bytes.now) }
    ensures inside { CallsInside HostFault.Failed (H.session host.old) (H.session host.new) result }
    ensures files { IsTrue H.tells
        → ChangesFiles (IsOverwriting name.now offset (length bytes.now) (H.world host.old).now.directory)
        (H.world host.old) (H.world host.new) }
    ensures overwritten { IsTrue H.tells → OnOk result (IsOverwritten name.now offset bytes.now
        (H.world host.old).now.directory (H.world host.new).now.directory) }
{
    host.write(alloc, name, offset, bytes)?;
    // Until its bytes are durable, a crash could still leave others in the range.
    host.sync(alloc, name)
}
