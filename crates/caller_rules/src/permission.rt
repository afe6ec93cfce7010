//! Whether a tool may work on a spool.
ghost use Rattle.std.specs.Prelude.{◌≡◌, ◌++◌, IfOk, map, option_copied, string_bytes};
ghost use Rattle.caller_rules.specs.Permission.{IsJudged, IsJudgedWhere, IsPathJudged, IsSaveJudged, directory_in, may_work, saved_into, status_calls};

use crate::file_status::{is_link, is_theirs};
use crate::spool_paths::{SpoolPaths, paths_of};
use std::alloc::{AllocError, Global};
use system_calls::{FileStatus, System};

/// The status of what has the paths of a spool.
#[derive(Clone, Copy)]
pub struct SpoolStatuses {
    pub spool: Option<FileStatus>,
    pub outputs: Option<FileStatus>,
    pub lock: Option<FileStatus>,
    /// Of the last two also where they are links.
    pub outputs_itself: Option<FileStatus>,
    pub lock_itself: Option<FileStatus>,
}

/// Whether a tool may work on the spool of these paths, for the user of this number: all of it that exists is the user's,
/// and neither its outputs nor its lock is a link.
pub fn may_work_on<S: System>(system: &mut S, user: Option<u32>, paths: &SpoolPaths) -> bool
    /// A tool may work on a spool exactly if neither its outputs nor its lock is a link, and they and the spool are the
    /// caller's, as far as they exist.
    ensures { IsJudged user paths.now (S.trace system.old) (S.trace system.new) result }
{
    let found = statuses_of(system, paths);
    may_work(user, &found)
}

// The status of what has these paths.
fn statuses_of<S: System>(system: &mut S, paths: &SpoolPaths) -> SpoolStatuses
    ensures { S.trace system.new ≡ S.trace system.old ++ status_calls paths.now result }
{
    let spool = system.status(paths.spool.as_str());
    let outputs = system.status(paths.outputs.as_str());
    let lock = system.status(paths.lock.as_str());
    let outputs_itself = system.link_status(paths.outputs.as_str());
    let lock_itself = system.link_status(paths.lock.as_str());
    SpoolStatuses {
        spool,
        outputs,
        lock,
        outputs_itself,
        lock_itself,
    }
}

fn may_work(user: Option<u32>, found: &SpoolStatuses) -> bool
    ensures { result ≡ may_work user found.now }
{
    !is_link(&found.outputs_itself)
        && !is_link(&found.lock_itself)
        && is_theirs(&found.spool, user)
        && is_theirs(&found.outputs, user)
        && is_theirs(&found.lock, user)
}

/// Whether a tool may work on the spool that this path names, or make one there.
pub fn may_work_at<S: System>(
    system: &mut S,
    alloc: Global,
    user: Option<u32>,
    path: &str,
) -> Result<bool, AllocError>
    ensures { IfOk result (IsPathJudged path.now user (S.trace system.old) (S.trace system.new)) }
{
    let paths = paths_of(system, alloc, path)?;
    Ok(may_work_where(system, user, &paths))
}

/// Whether the checker may save into the directory that the word after that of the spool names.
pub fn may_save_into<S: System>(
    system: &mut S,
    alloc: Global,
    words: &[String],
    user: Option<u32>,
) -> Result<bool, AllocError>
    /// The directory into which the checker saves is judged as a spool is.
    ensures { IfOk result (IsSaveJudged (saved_into (map string_bytes words.now)) user
        (S.trace system.old) (S.trace system.new)) }
{
    match saved_into(words) {
        Some(path) => Ok(may_work_at(system, alloc, user, path)?),
        None => Ok(true),
    }
}

// The directory that the words name after that of the spool: no word that begins with `-`.
fn saved_into(words: &[String]) -> Option<&str>
    ensures { option_copied result ≡ saved_into (map string_bytes words.now) }
{
    match words {
        [_, word, ..] => directory_in(word.as_str()),
        _ => None,
    }
}

fn directory_in(word: &str) -> Option<&str>
    ensures { option_copied result ≡ directory_in word.now }
{
    match word.as_bytes() {
        [b'-', ..] => None,
        _ => Some(word),
    }
}

pub(crate) fn may_work_where<S: System>(
    system: &mut S,
    user: Option<u32>,
    paths: &Option<SpoolPaths>,
) -> bool
    ensures { IsJudgedWhere paths.now user (S.trace system.old) (S.trace system.new) result }
{
    match paths {
        Some(paths) => may_work_on(system, user, paths),
        None => true,
    }
}
