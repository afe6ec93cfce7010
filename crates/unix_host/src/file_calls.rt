//! The changes of a directory themselves. Each is made only once the session knows of it, the byte of the lock says
//! enough, no listing is kept that would say what was before it, and no file that was written to before is open.
ghost use Rattle.std.specs.Prelude.{◌≡◌, ◌≤◌, IsTrue, None, string_bytes};
ghost use Rattle.unix_host.specs.inside.Changes.{unsynced_left_by};
ghost use Rattle.unix_host.specs.inside.LockByte.{amount_of};
ghost use Rattle.unix_host.specs.inside.Paths.{file_in};
ghost use Rattle.unix_host.specs.inside.Torn.{may_tear};

use crate::locked::LockedDirectory;
use crate::synced::WrittenFile;
use crate::torn::Torn;
use host_calls::{HostFault, Name};
use std::fs;
use std::fs::{File, Files, OpenOptions, Permissions};
use std::io::Write;
use std::os::unix::fs::{OpenOptionsExt, PermissionsExt};

/// Makes a file.
pub fn create_file<R: Files<File = File>>(
    directory: &LockedDirectory,
    rt: &R,
    path: &str,
    name: &Name,
    bytes: &[u8],
) -> Result<(), HostFault>
    requires path { path.now ≡ file_in (string_bytes directory.now.paths.directory) name.now }
    requires names { IsTrue directory.now.changes.names }
    requires torn { IsTrue (may_tear directory.now.changes.torn name.now) }
    requires known { amount_of (unsynced_left_by directory.now.changes) ≤ amount_of directory.now.lock.known }
    requires unlisted { directory.now.listing ≡ None }
    requires closed { directory.now.written ≡ None }
{
    let _ = name;
    let mut options = OpenOptions::new();
    options.write(true).create_new(true).mode(0o600);
    let Ok(mut file) = options.open(rt, path) else {
        return Err(HostFault::Failed);
    };
    // The umask may have taken the rights of the owner too, and it is opened again to be synced. A file system that
    // keeps no rights may refuse this.
    let _ = file.set_permissions(Permissions::from_mode(0o600));
    file.write_all(bytes).map_err(|_| HostFault::Failed)
}

/// Writes over a range of a file.
pub fn write_range(
    directory: &LockedDirectory,
    file: &WrittenFile,
    name: &Name,
    offset: u64,
    bytes: &[u8],
) -> Result<(), HostFault>
    requires path { string_bytes file.now.path ≡ file_in (string_bytes directory.now.paths.directory) name.now }
    requires torn { IsTrue (may_tear directory.now.changes.torn name.now) }
    requires known { amount_of (unsynced_left_by directory.now.changes) ≤ amount_of directory.now.lock.known }
    requires unlisted { directory.now.listing ≡ None }
    requires closed { directory.now.written ≡ None }
{
    let _ = directory;
    let _ = name;
    file.write(offset, bytes)
}

/// Gives a file another name.
pub fn move_name<R: Files>(
    directory: &LockedDirectory,
    rt: &R,
    source: &str,
    target: &str,
    from: &Name,
    to: &Name,
) -> Result<(), HostFault>
    requires source { source.now ≡ file_in (string_bytes directory.now.paths.directory) from.now }
    requires target { target.now ≡ file_in (string_bytes directory.now.paths.directory) to.now }
    requires names { IsTrue directory.now.changes.names }
    requires torn { IsTrue (may_tear directory.now.changes.torn from.now) → directory.now.changes.torn ≡ Torn.Each }
    requires known { amount_of (unsynced_left_by directory.now.changes) ≤ amount_of directory.now.lock.known }
    requires unlisted { directory.now.listing ≡ None }
    requires closed { directory.now.written ≡ None }
{
    let _ = from;
    let _ = to;
    fs::rename(rt, source, target).map_err(|_| HostFault::Failed)
}

/// Removes a file.
pub fn remove_name<R: Files>(
    directory: &LockedDirectory,
    rt: &R,
    path: &str,
    name: &Name,
) -> Result<(), HostFault>
    requires path { path.now ≡ file_in (string_bytes directory.now.paths.directory) name.now }
    requires names { IsTrue directory.now.changes.names }
    requires known { amount_of (unsynced_left_by directory.now.changes) ≤ amount_of directory.now.lock.known }
    requires unlisted { directory.now.listing ≡ None }
    requires closed { directory.now.written ≡ None }
{
    let _ = name;
    fs::remove_file(rt, path).map_err(|_| HostFault::Failed)
}
