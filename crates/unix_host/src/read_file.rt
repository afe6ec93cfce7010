//! What is read of a directory under its lock.
ghost use Rattle.std.specs.Prelude.{◌≤◌, IfOk, vec_len};

use crate::files;
use crate::locked::LockedDirectory;
use host_calls::{HostFault, Name};
use std::alloc::Global;
use std::fs::{File, Files};

/// The length of a file, if it is a plain one: that of the kept listing, where it has the file.
pub fn length<R: Files>(
    directory: &LockedDirectory,
    rt: &R,
    alloc: Global,
    name: &Name,
) -> Result<u64, HostFault> {
    if let Some(file) = directory.listed(name) {
        return Ok(file.length);
    }
    let path = directory.paths().file(alloc, name)?;
    files::length(rt, path.as_str())
}

/// At most `most` bytes of a file from an offset on, fewer only at its end: those of the kept listing, where it has them.
pub fn read_file<R: Files<File = File>>(
    directory: &LockedDirectory,
    rt: &R,
    alloc: Global,
    name: &Name,
    offset: u64,
    most: usize,
) -> Result<Vec<u8>, HostFault>
    ensures few { IfOk result (λ bytes. vec_len bytes ≤ most) }
{
    let Some(file) = directory.listed(name) else {
        let path = directory.paths().file(alloc, name)?;
        let length = files::length(rt, path.as_str())?;
        return files::read_plain_file(rt, alloc, path.as_str(), length, offset, most);
    };
    if let Some(bytes) = directory.first_bytes(file, offset, most) {
        return Ok(Vec::from_slice(alloc, bytes)?);
    }
    let path = directory.paths().file(alloc, name)?;
    files::read_plain_file(rt, alloc, path.as_str(), file.length, offset, most)
}
