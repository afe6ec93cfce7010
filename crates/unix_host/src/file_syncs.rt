//! The syncs of a directory's files.
ghost use Rattle.std.specs.Prelude.{◌≡◌, IfOk, length};

use crate::files;
use crate::files_left::FilesLeft;
use crate::paths::Paths;
use crate::synced::{Synced, WrittenFile, sync_path};
use host_calls::{HostFault, Name};
use std::alloc::Global;
use std::fs::{File, Files};

/// Syncs a file, if it is a plain one.
pub fn sync_file<'a, R: Files<File = File>>(rt: &R, path: &'a str) -> Result<Synced<'a>, HostFault>
    ensures path { IfOk result (λ synced. synced.path.now ≡ path.now) }
{
    files::length(rt, path)?;
    sync_path(rt, path)
}

/// Syncs the bytes of a file, which may be the one that is still open.
pub fn sync_written<'a, R: Files<File = File>>(
    rt: &R,
    written: &'a Option<WrittenFile>,
    path: &'a str,
) -> Result<Synced<'a>, HostFault>
    ensures path { IfOk result (λ synced. synced.path.now ≡ path.now) }
{
    if let Some(file) = written {
        if file.is_at(path) {
            return file.sync();
        }
    }
    sync_file(rt, path)
}

/// Syncs the bytes of each of these files, the last first.
pub fn sync_each_file<'a, R: Files<File = File>>(
    rt: &R,
    alloc: Global,
    paths: &'a Paths,
    names: &'a [Name],
) -> Result<FilesLeft<'a>, HostFault>
    ensures paths { IfOk result (λ files. files.paths.now ≡ paths.now) }
    ensures listed { IfOk result (λ files. files.listed.now ≡ names.now) }
    ensures each { IfOk result (λ files. length files.left.now ≡ 0) }
{
    let mut files = FilesLeft::all(paths, names);
    while let Some((name, left)) = files.last() {
        // Files after it may be synced, so an out-of-memory error is a failure here.
        let Ok(path) = paths.file(alloc, name) else {
            return Err(HostFault::Failed);
        };
        let file = sync_file(rt, path.as_str())?;
        files = files.before(left, name, file);
    }
    Ok(files)
}
