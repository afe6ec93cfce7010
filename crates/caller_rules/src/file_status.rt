//! Whose a file is, and what it is.
ghost use Rattle.std.specs.Prelude.{◌≡◌, Some};
ghost use Rattle.system_calls.specs.Calls.{link_status_call, status_call};
ghost use Rattle.caller_rules.specs.FileStatuses.{AreCompared, is_one_directory, IsDecidedBy, is_directory_status, is_directory_of, is_link, is_theirs};

use system_calls::{FileKind, FileStatus, System};

/// Whether a directory has the path.
pub fn is_directory_there<S: System>(system: &mut S, path: &str) -> bool
    ensures { IsDecidedBy (status_call path.now) is_directory_status
        (S.trace system.old) (S.trace system.new) result }
{
    let status = system.status(path);
    is_directory_status(&status)
}

/// Whether a directory of this user has the path.
pub fn is_directory_there_of<S: System>(system: &mut S, path: &str, user: u32) -> bool
    ensures { IsDecidedBy (status_call path.now) (is_directory_of user)
        (S.trace system.old) (S.trace system.new) result }
{
    let status = system.status(path);
    is_directory_of(&status, user)
}

/// Whether both paths name one directory, which exists.
pub fn is_same_directory<S: System>(system: &mut S, one: &str, other: &str) -> bool
    ensures { AreCompared one.now other.now (S.trace system.old) (S.trace system.new) result }
{
    let first = system.status(one);
    let second = system.status(other);
    is_one_directory(&first, &second)
}

fn is_one_directory(one: &Option<FileStatus>, other: &Option<FileStatus>) -> bool
    ensures { result ≡ is_one_directory one.now other.now }
{
    match (one, other) {
        (Some(one), Some(other)) => {
            one.kind == FileKind::Directory
                && one.inode == other.inode
                && one.device == other.device
        }
        _ => false,
    }
}

/// Whether this user owns what has this path. What is absent is anybody's.
pub fn is_owned_by<S: System>(system: &mut S, path: &str, user: u32) -> bool
    ensures { IsDecidedBy (status_call path.now) (is_theirs (Some user))
        (S.trace system.old) (S.trace system.new) result }
{
    let status = system.status(path);
    is_theirs(&status, Some(user))
}

/// Whether the path is that of a link.
pub fn is_link_there<S: System>(system: &mut S, path: &str) -> bool
    ensures { IsDecidedBy (link_status_call path.now) is_link (S.trace system.old) (S.trace system.new) result }
{
    let status = system.link_status(path);
    is_link(&status)
}

pub(crate) fn is_directory_status(status: &Option<FileStatus>) -> bool
    ensures { result ≡ is_directory_status status.now }
{
    match status {
        Some(status) => status.kind == FileKind::Directory,
        None => false,
    }
}

pub(crate) fn is_link(status: &Option<FileStatus>) -> bool
    ensures { result ≡ is_link status.now }
{
    match status {
        Some(status) => status.kind == FileKind::Link,
        None => false,
    }
}

pub(crate) fn is_directory_of(status: &Option<FileStatus>, user: u32) -> bool
    ensures { result ≡ is_directory_of user status.now }
{
    match status {
        Some(status) => status.kind == FileKind::Directory && status.owner == user,
        None => false,
    }
}

/// Whether it is this user's. What is absent is anybody's; without a user number all is theirs.
pub(crate) fn is_theirs(status: &Option<FileStatus>, user: Option<u32>) -> bool
    ensures { result ≡ is_theirs user status.now }
{
    match (user, status) {
        (Some(user), Some(status)) => status.owner == user,
        _ => true,
    }
}
