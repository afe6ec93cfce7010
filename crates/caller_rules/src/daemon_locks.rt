//! One atd, one atpost and one atcron for a spool: each holds a lock as long as it lives.
//!
//! What is locked lies in the spool, so that it is one file by whatever path the spool is reached. An atd holds a lock on the
//! directory of outputs too, which an atd of an earlier version looks at.
ghost use Rattle.std.specs.Prelude.{◌≡◌, IfOk, option_copied};
ghost use Rattle.caller_rules.specs.DaemonLocks.{AreOutputsLocked, AreOutputsMade, IsAtdLock, IsDaemonLock, IsLockFileMade, IsLockFilled, IsLockTried, IsLockTriedAfter, is_free, lock_name};
ghost use Rattle.caller_rules.specs.SpoolPaths.{path_within};

use crate::own_spool::DAEMON_LOCK;
use crate::spool_paths::{SpoolPaths, path_within};
use caller_environment::ToolName;
use host_calls::Text;
use std::alloc::{AllocError, Global};
use system_calls::{LockAttempt, System};

// The files within a spool that its atpost and its atcron lock.
const MAIL_LOCK: &str = ".ATPOST";

const CRONTAB_LOCK: &str = ".ATCRON";

/// The file within a spool that a daemon locks. None of a tool that is no daemon.
pub fn lock_name(tool: ToolName) -> Option<&'static str>
    ensures { option_copied result ≡ lock_name tool }
{
    match tool {
        ToolName::Atd => Some(DAEMON_LOCK),
        ToolName::Atpost => Some(MAIL_LOCK),
        ToolName::Atcron => Some(CRONTAB_LOCK),
        _ => None,
    }
}

/// Takes the locks of the atd of a spool, whose directory of outputs is made where it is absent. Answers whether the atd may
/// begin: no other process holds one of them. The system keeps them.
pub fn take_atd_locks<S: System>(
    system: &mut S,
    alloc: Global,
    paths: &SpoolPaths,
) -> Result<bool, AllocError>
    /// An atd begins unless another process holds that lock or the one of the outputs.
    ensures { IfOk result (IsAtdLock paths.now (S.trace system.old) (S.trace system.new)) }
{
    make_outputs(system, paths);
    let is_free = take_daemon_lock(system, alloc, DAEMON_LOCK, paths)?;
    Ok(lock_outputs(system, is_free, paths))
}

// (where it fails the program finds no outputs either, and says so)
fn make_outputs<S: System>(system: &mut S, paths: &SpoolPaths)
    ensures { AreOutputsMade paths.now (S.trace system.old) (S.trace system.new) }
{
    if system.make_directory(paths.outputs.as_str()) {
        system.sync_directory(paths.parent.as_str());
    }
}

// Locks the outputs, unless the atd may not begin.
fn lock_outputs<S: System>(system: &mut S, may: bool, paths: &SpoolPaths) -> bool
    ensures { AreOutputsLocked may paths.now (S.trace system.old) (S.trace system.new) result }
{
    if !may {
        return false;
    }
    is_free(system.lock_directory(paths.outputs.as_str()))
}

/// Takes the lock of a daemon by a file of this name within the spool, which is made where it is absent. Answers whether the
/// daemon may begin: no other process holds it. A file that is absent, or that can't be locked, as on a file system without
/// locks, keeps nobody out.
pub fn take_daemon_lock<S: System>(
    system: &mut S,
    alloc: Global,
    name: &str,
    paths: &SpoolPaths,
) -> Result<bool, AllocError>
    /// A daemon begins unless another process holds the lock of its file, which is made while the spool's lock is held.
    ensures { IfOk result (IsDaemonLock (path_within paths.now.spool name.now) paths.now
        (S.trace system.old) (S.trace system.new)) }
{
    let path = path_within(alloc, paths.spool.as_str(), name)?;
    let attempt = try_lock(system, &path, paths);
    Ok(is_free(attempt))
}

fn is_free(attempt: LockAttempt) -> bool
    ensures { result ≡ is_free attempt }
{
    !matches!(attempt, LockAttempt::Taken)
}

fn try_lock<S: System>(system: &mut S, path: &Text, paths: &SpoolPaths) -> LockAttempt
    ensures { IsLockTried path.now paths.now (S.trace system.old) (S.trace system.new) result }
{
    let attempt = system.lock_file(path.as_str());
    try_lock_after(system, attempt, path, paths)
}

// The file is made where it is absent.
fn try_lock_after<S: System>(
    system: &mut S,
    attempt: LockAttempt,
    path: &Text,
    paths: &SpoolPaths,
) -> LockAttempt
    ensures { IsLockTriedAfter attempt path.now paths.now (S.trace system.old) (S.trace system.new) result }
{
    match attempt {
        LockAttempt::Absent => {
            make_lock_file(system, path, paths);
            system.lock_file(path.as_str())
        }
        _ => attempt,
    }
}

// No session of a tool goes on meanwhile: it would find a name that it does not know.
fn make_lock_file<S: System>(system: &mut S, path: &Text, paths: &SpoolPaths)
    ensures { IsLockFileMade path.now paths.now (S.trace system.old) (S.trace system.new) }
{
    if system.await_lock(paths.lock.as_str()) {
        put_lock_file(system, path, paths);
        system.release_lock();
    }
}

// The name is durable before the daemon begins.
fn put_lock_file<S: System>(system: &mut S, path: &Text, paths: &SpoolPaths)
    ensures { IsLockFilled path.now paths.now (S.trace system.old) (S.trace system.new) }
{
    if system.put_file(path.as_str()) {
        system.sync_directory(paths.spool.as_str());
    }
}
