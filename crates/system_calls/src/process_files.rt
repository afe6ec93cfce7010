//! Files and directories of the system on which the process runs.
use crate::call::{FileKind, FileStatus, LockAttempt};
use crate::file_read::FileRead;
use host_calls::Bytes;
use std::fs::{DirBuilder, File, Metadata, OpenOptions, Permissions, TryLockError};
use std::io::{ErrorKind, Read};
use std::os::unix::fs::{DirBuilderExt, MetadataExt, OpenOptionsExt, PermissionsExt};
use std::{fs, io};

// How many bytes are read at a time.
const CHUNK: usize = 4096;

/// The status that the system reports.
pub(crate) fn status_of_metadata(found: &Metadata) -> FileStatus {
    FileStatus {
        owner: found.uid(),
        kind: kind_of_metadata(found),
        mode: found.mode(),
        links: found.nlink(),
        device: found.dev(),
        inode: found.ino(),
    }
}

fn kind_of_metadata(found: &Metadata) -> FileKind {
    if found.is_symlink() {
        FileKind::Link
    } else if found.is_dir() {
        FileKind::Directory
    } else if found.is_file() {
        FileKind::File
    } else {
        FileKind::Other
    }
}

/// Makes a directory of the mode 0700. One whose mode can't be set is removed.
pub(crate) fn directory_made(rt: &HostRuntime, path: &str) -> bool {
    if DirBuilder::new().mode(0o700).create(rt, path).is_err() {
        return false;
    }
    // (the umask may have taken the rights of the owner too)
    if fs::set_permissions(rt, path, Permissions::from_mode(0o700)).is_ok() {
        return true;
    }
    let _ = fs::remove_dir(rt, path);
    false
}

/// Makes an empty file where it is absent, and syncs it.
pub(crate) fn file_put(rt: &HostRuntime, path: &str) -> io::Result<()> {
    let mut options = OpenOptions::new();
    options.write(true).create(true).mode(0o600);
    options.open(rt, path)?.sync_all()
}

/// Makes an empty file, which must be absent.
pub(crate) fn file_created(rt: &HostRuntime, path: &str) -> io::Result<()> {
    let mut options = OpenOptions::new();
    options.write(true).create_new(true).mode(0o600);
    let _file = options.open(rt, path)?;
    Ok(())
}

/// Syncs a directory.
pub(crate) fn synced_directory(rt: &HostRuntime, path: &str) -> io::Result<()> {
    File::open(rt, path)?.sync_all()
}

/// Tries the lock of a file, without waiting.
pub(crate) fn lock_attempt(opened: io::Result<File>) -> (LockAttempt, Option<File>) {
    match opened {
        Ok(file) => match file.try_lock() {
            Ok(()) => (LockAttempt::Held, Some(file)),
            Err(TryLockError::WouldBlock) => (LockAttempt::Taken, None),
            Err(TryLockError::Error(_)) => (LockAttempt::Unlocked, None),
        },
        Err(error) if error.kind() == ErrorKind::NotFound => (LockAttempt::Absent, None),
        Err(_) => (LockAttempt::Unlocked, None),
    }
}

/// Waits for the lock of a file, which is made where it is absent.
pub(crate) fn locked_after_wait(rt: &HostRuntime, path: &str) -> io::Result<File> {
    let mut options = OpenOptions::new();
    options.read(true).write(true).create(true).mode(0o600);
    let file = options.open(rt, path)?;
    file.lock()?;
    Ok(file)
}

/// Reads a plain file of at most so many bytes.
pub(crate) fn file_read_up_to(rt: &HostRuntime, path: &str, most: u64) -> FileRead {
    match fs::metadata(rt, path) {
        Ok(found) if !found.is_file() => FileRead::Unreadable,
        Ok(found) if found.len() > most => FileRead::TooLong,
        Ok(_) => match bytes_within(rt, path, most) {
            Ok(Some(bytes)) => FileRead::Whole(Bytes::from(bytes)),
            Ok(None) => FileRead::TooLong,
            Err(_) => FileRead::Unreadable,
        },
        Err(error) if error.kind() == ErrorKind::NotFound => FileRead::Absent,
        Err(_) => FileRead::Unreadable,
    }
}

// The bytes of a file. None where it has more than the bound: a file of /proc does not report its length.
fn bytes_within(rt: &HostRuntime, path: &str, most: u64) -> io::Result<Option<Vec<u8>>> {
    let mut file = File::open(rt, path)?;
    let mut bytes = Vec::new(rt.alloc());
    let mut chunk = [0; CHUNK];
    for _ in 0..u64::MAX {
        let count = file.read(&mut chunk)?;
        if count == 0 {
            break;
        }
        bytes.extend_from_slice(&chunk[..count])?;
        if bytes.len() as u64 > most {
            return Ok(None);
        }
    }
    Ok(Some(bytes))
}
