//! Reading a file, whole or its first bytes.
ghost use Rattle.std.specs.Prelude.{◌≡◌, IfOk, IsSome, IsTrue, Some, is_some, option_map, take};
ghost use Rattle.std.specs.FinMap as map;
ghost use Rattle.host_calls.specs.Session.{CallsInside, IsInside};
ghost use Rattle.host_calls.specs.World.{reading};

use host_calls::{Bytes, Host, HostFault, Name};
use std::alloc::Global;

/// All bytes of the named file, if there is such a file.
pub fn content<H: Host>(
    alloc: Global,
    host: &mut H,
    name: &Name,
) -> Result<Option<Bytes>, HostFault>
    requires { IsInside (H.session host.old) }
    ensures inside { CallsInside HostFault.Failed (H.session host.old) (H.session host.new) result }
    ensures looks { IsTrue H.tells → H.world host.new ≡ H.world host.old }
    ensures content { IsTrue H.tells
        → IfOk result (λ content. content ≡ map.get (reading (H.world host.old)) name.now) }
{
    if !is_there(alloc, host, name)? {
        return Ok(None);
    }
    Ok(Some(whole(alloc, host, name)?))
}

/// The first bytes of the named file, at most so many, if there is such a file. No more of it is read.
pub fn first_bytes<H: Host>(
    alloc: Global,
    host: &mut H,
    name: &Name,
    most: usize,
) -> Result<Option<Bytes>, HostFault>
    requires { IsInside (H.session host.old) }
    ensures inside { CallsInside HostFault.Failed (H.session host.old) (H.session host.new) result }
    ensures looks { IsTrue H.tells → H.world host.new ≡ H.world host.old }
    ensures first { IsTrue H.tells
        → IfOk result (λ first. first ≡ option_map (take most) (map.get (reading (H.world host.old)) name.now)) }
{
    if !is_there(alloc, host, name)? {
        return Ok(None);
    }
    let length = host.length(alloc, name)?;
    let bytes = host.read(alloc, name, 0, most.min(length as usize))?;
    Ok(Some(Bytes::from(bytes)))
}

// The names come first: a host is requested the length and the bytes of files that are there alone.
fn is_there<H: Host>(alloc: Global, host: &mut H, name: &Name) -> Result<bool, HostFault>
    requires { IsInside (H.session host.old) }
    ensures inside { CallsInside HostFault.Failed (H.session host.old) (H.session host.new) result }
    ensures looks { IsTrue H.tells → H.world host.new ≡ H.world host.old }
    ensures found { IsTrue H.tells
        → IfOk result (λ found. found ≡ is_some (map.get (reading (H.world host.old)) name.now)) }
{
    let names = host.names(alloc)?;
    Ok(names.contains(name))
}

/// All bytes of the named file, which exists. The directory is not listed.
pub fn whole<H: Host>(alloc: Global, host: &mut H, name: &Name) -> Result<Bytes, HostFault>
    requires inside { IsInside (H.session host.old) }
    requires held { IsTrue H.tells → IsSome (map.get (reading (H.world host.old)) name.now) }
    ensures inside { CallsInside HostFault.Failed (H.session host.old) (H.session host.new) result }
    ensures looks { IsTrue H.tells → H.world host.new ≡ H.world host.old }
    ensures content { IsTrue H.tells
        → IfOk result (λ bytes. map.get (reading (H.world host.old)) name.now ≡ Some bytes) }
{
    let length = host.length(alloc, name)?;
    let bytes = host.read(alloc, name, 0, length as usize)?;
    Ok(Bytes::from(bytes))
}
