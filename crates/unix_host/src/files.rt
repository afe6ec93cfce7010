//! What a directory holds. Only plain files are opened, so that a FIFO blocks nobody and a link leads nowhere.
ghost use Rattle.std.specs.Prelude.{◌≡◌, ◌≢◌, ◌≤◌, IfOk, length, vec_len};
ghost use Rattle.unix_host.specs.Listings.{count_from};
ghost use Rattle.std.specs.IoError.{error_kind};

use crate::absent::Absent;
use crate::found::FoundFiles;
use crate::listing::{Listing, count_after};
use crate::naming::Naming;
use crate::paths::Paths;
use crate::synced::sync_path;
use host_calls::{EnterFault, HostFault, Name};
use std::alloc::{Alloc, Global};
use std::env::Env;
use std::fs::{DirBuilder, File, Files, OpenOptions, Permissions};
use std::io::{ErrorKind, Read};
use std::os::unix::fs::{DirBuilderExt, FileExt, PermissionsExt};
use std::{fs, io};

// How many bytes of names are read at a time. The longest name has 255, and none is cut.
const NAMES: usize = 4096;

/// Where the spool directory lies, which is made where it is absent, unless that is to be a fault. What lies next to
/// it is named by the directory's own path, that no link is in, so that one directory has one lock.
pub fn enter_directory<R: Files<File = File> + Env>(
    rt: &R,
    alloc: Global,
    spool: &str,
    absent: Absent,
    naming: Naming,
) -> Result<Paths, EnterFault> {
    match absent {
        Absent::Makes => create_spool_and_output(rt, alloc, spool, absent, naming),
        Absent::Fails => find_directory(rt, alloc, spool, naming),
    }
}

// The spool directory and the directory of outputs, which are made where they are absent.
fn create_spool_and_output<R: Files<File = File> + Env>(
    rt: &R,
    alloc: Global,
    spool: &str,
    absent: Absent,
    naming: Naming,
) -> Result<Paths, EnterFault>
    requires { absent ≡ Absent.Makes }
{
    let Ok(is_new) = create_spool(rt, spool, absent) else {
        return Err(EnterFault::Failed);
    };
    let paths = resolved(rt, alloc, spool, naming)?;
    let Ok(has_new_outputs) = create_spool(rt, paths.outputs(), absent) else {
        return Err(EnterFault::Failed);
    };
    // A submission that is acknowledged is not to vanish with the directory.
    if (is_new || has_new_outputs) && sync_path(rt, paths.parent()).is_err() {
        return Err(EnterFault::Failed);
    }
    Ok(paths)
}

// The spool directory, if it exists.
fn find_directory<R: Files + Env>(
    rt: &R,
    alloc: Global,
    spool: &str,
    naming: Naming,
) -> Result<Paths, EnterFault> {
    if !is_spool_directory(rt, spool) {
        return Err(EnterFault::Failed);
    }
    resolved(rt, alloc, spool, naming)
}

// Whether the directory is new. Only its owner may look into it. A host of a directory that exists can't call it.
fn create_spool<R: Files>(rt: &R, path: &str, absent: Absent) -> io::Result<bool>
    requires { absent ≡ Absent.Makes }
{
    let _ = absent;
    if is_spool_directory(rt, path) {
        return Ok(false);
    }
    match DirBuilder::new().mode(0o700).create(rt, path) {
        Ok(()) => {
            // The umask may have taken the rights of the owner too.
            let _ = fs::set_permissions(rt, path, Permissions::from_mode(0o700));
            Ok(true)
        }
        // Another program was faster.
        Err(_) if is_spool_directory(rt, path) => Ok(false),
        Err(error) => Err(error),
    }
}

fn is_spool_directory<R: Files>(rt: &R, path: &str) -> bool {
    match fs::metadata(rt, path) {
        Ok(found) => found.is_dir(),
        Err(_) => false,
    }
}

// The root is no spool directory: nothing lies next to it.
fn resolved<R: Files + Env>(
    rt: &R,
    alloc: Global,
    spool: &str,
    naming: Naming,
) -> Result<Paths, EnterFault> {
    let directory = match rt.canonicalize(alloc, spool) {
        Ok(directory) => directory,
        Err(error) if error.kind() == ErrorKind::OutOfMemory => return Err(EnterFault::Memory),
        Err(_) => return Err(EnterFault::Failed),
    };
    match directory.parent() {
        Some(parent) if directory.is_absolute() => {
            let base = base_of(rt, directory.as_str(), spool, naming);
            Ok(Paths::of(alloc, directory.as_str(), base, parent.as_str())?)
        }
        _ => Err(EnterFault::Failed),
    }
}

// By what the files of the directory are reached: by its own path, or as those of the current directory. A spool that is named
// by a relative path would be another one at the next session.
fn base_of<'a, R: Env>(rt: &R, directory: &'a str, spool: &str, naming: Naming) -> &'a str {
    match naming {
        Naming::Current if spool.starts_with('/') && rt.set_current_dir(directory).is_ok() => ".",
        Naming::Current | Naming::Whole => directory,
    }
}

/// The plain files, their lengths, and so many first bytes of each at most. Whatever has no `Name` is left out.
pub fn list_files<R: Files<File = File>>(
    rt: &R,
    alloc: Global,
    paths: &Paths,
    most: usize,
) -> Result<Listing, HostFault> {
    let mut directory = rt.open_dir(paths.directory()).map_err(host_fault_of)?;
    let mut found = FoundFiles::none(alloc);
    let mut head = vec![in alloc; 0; most]?;
    let mut names = [0; NAMES];
    for _ in 0..u64::MAX {
        let count = directory.read(&mut names).map_err(host_fault_of)?;
        if count == 0 {
            return Ok(Listing::of(alloc, found)?);
        }
        add_plain_files(rt, alloc, paths, &names[..count], &mut head, &mut found)?;
    }
    Err(HostFault::Failed)
}

// The plain ones of these names, each of which a NUL ends.
fn add_plain_files<R: Files<File = File>>(
    rt: &R,
    alloc: Global,
    paths: &Paths,
    names: &[u8],
    head: &mut [u8],
    found: &mut FoundFiles,
) -> Result<(), HostFault> {
    let mut path = String::new(alloc);
    for bytes in names.split(|byte| *byte == 0) {
        if let Some(name) = Name::of(bytes) {
            paths.put_file(&mut path, &name)?;
            add_plain_file(rt, path.as_str(), &name, head, found)?;
        }
    }
    Ok(())
}

// Looks at one file, and opens it at once if it is a plain one: what the system has just looked up it finds soonest.
fn add_plain_file<R: Files<File = File>>(
    rt: &R,
    path: &str,
    name: &Name,
    head: &mut [u8],
    found: &mut FoundFiles,
) -> Result<(), HostFault> {
    let looked = fs::symlink_metadata(rt, path).map_err(host_fault_of)?;
    if looked.is_file() {
        let length = looked.len();
        let count = read_head(rt, path, length, head);
        found.add(name, length, &head[..count])?;
    }
    Ok(())
}

// How many first bytes of a plain file are in the buffer: as many as it has room for, or none where they can't be read.
fn read_head<R: Files<File = File>>(rt: &R, path: &str, size: u64, head: &mut [u8]) -> usize
    ensures { result ≤ length head.new }
{
    let count = count_after(size, 0, head.len());
    if count == 0 {
        return 0;
    }
    match File::open(rt, path) {
        Ok(file) if file.read_exact_at(&mut head[..count], 0).is_ok() => count,
        _ => 0,
    }
}

// Nothing was done where a list could not be made for lack of memory.
fn host_fault_of(error: io::Error) -> HostFault
    ensures memory { error_kind error ≡ ErrorKind.OutOfMemory → result ≡ HostFault.Memory }
    ensures failed { error_kind error ≢ ErrorKind.OutOfMemory → result ≡ HostFault.Failed }
{
    if error.kind() == ErrorKind::OutOfMemory {
        HostFault::Memory
    } else {
        HostFault::Failed
    }
}

/// The length of a file, if it is a plain one.
pub fn length<R: Files>(rt: &R, path: &str) -> Result<u64, HostFault> {
    match fs::symlink_metadata(rt, path) {
        Ok(found) if found.is_file() => Ok(found.len()),
        _ => Err(HostFault::Failed),
    }
}

/// A file, if it is a plain one.
pub fn opened<R: Files<File = File>>(
    rt: &R,
    path: &str,
    options: &OpenOptions,
) -> Result<File, HostFault> {
    length(rt, path)?;
    options.open(rt, path).map_err(|_| HostFault::Failed)
}

/// What a plain file of this length has from an offset on, or `most` bytes of it. One that ends before its length is no
/// whole file, and that is a fault.
pub fn read_plain_file<R: Files<File = File>>(
    rt: &R,
    alloc: Global,
    path: &str,
    length: u64,
    offset: u64,
    most: usize,
) -> Result<Vec<u8>, HostFault>
    ensures whole { IfOk result (λ bytes. vec_len bytes ≡ count_from length offset most) }
{
    let count = count_after(length, offset, most);
    let mut bytes = vec![in alloc; 0; count]?;
    let Ok(file) = File::open(rt, path) else {
        return Err(HostFault::Failed);
    };
    file.read_exact_at(&mut bytes, offset)
        .map_err(|_| HostFault::Failed)?;
    Ok(bytes)
}
