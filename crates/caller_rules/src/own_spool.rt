//! The caller's own spool, made where it is absent.
ghost use Rattle.std.specs.Prelude.{◌≡◌, ◌||◌, true, IfOk, IsTrue, not};
ghost use Rattle.caller_rules.specs.OwnSpool.{AreDurablyMade, EndsWithFile, HasList, IsDirectoryThere, IsFileDurable, IsListedSpool, IsNameSynced, parent_of};
ghost use Rattle.caller_rules.specs.Users.{is_root_user};

use crate::file_status::is_directory_there;
use crate::spool_paths::path_within;
use crate::tool_spool::ToolSpool;
use crate::user::CallingUser;
use std::alloc::{AllocError, Global};
use std::path::Path;
use system_calls::System;

/// The empty file within a spool that its atd locks.
pub const DAEMON_LOCK: &str = ".ATD";

/// Makes the caller's own spool, where it is absent. Where that fails it is for who works on the spool to find.
pub fn make_own<S: System>(
    system: &mut S,
    alloc: Global,
    user: &CallingUser,
    spool: &ToolSpool,
) -> bool
    /// Root's spool, and one that a word or a variable names, is left as it is.
    ensures other { (not spool.now.is_own || is_root_user user.now) ≡ true → S.trace system.new ≡ S.trace system.old }
    /// After success each new directory was synced at once, then its parent; and each new file, then its directory.
    ensures durable { IsTrue result → AreDurablyMade (S.trace system.old) (S.trace system.new) }
    /// The spool has a list of users then, which was found or made.
    ensures listed { IsTrue result → IsTrue (not (not spool.now.is_own || is_root_user user.now))
        → IsListedSpool spool.now.path (S.trace system.new) }
{
    if !spool.is_own || user.is_root() {
        return true;
    }
    make_spool(system, alloc, spool.path.as_str()).unwrap_or(false)
}

/// Makes a spool with an empty list `at.deny` and the file that an atd locks, and the directories that it lies in, where they
/// are absent. Answers whether the spool is there.
pub fn make_spool<S: System>(system: &mut S, alloc: Global, spool: &str) -> Result<bool, AllocError>
    ensures durable { IfOk result (λ made. IsTrue made → AreDurablyMade (S.trace system.old) (S.trace system.new)) }
    ensures listed { IfOk result (λ made. IsTrue made → IsListedSpool spool.now (S.trace system.new)) }
{
    let deny = path_within(alloc, spool, "at.deny")?;
    let allow = path_within(alloc, spool, "at.allow")?;
    let lock = path_within(alloc, spool, DAEMON_LOCK)?;
    if has_list(system, deny.as_str(), allow.as_str()) {
        return Ok(true);
    }
    Ok(make_listed(system, spool, lock.as_str(), deny.as_str()))
}

// Whether the spool has one of the lists of users. Without them nobody but root may use it.
fn has_list<S: System>(system: &mut S, deny: &str, allow: &str) -> bool
    ensures durable { AreDurablyMade (S.trace system.old) (S.trace system.new) }
    ensures listed { IsTrue result → HasList deny.now allow.now (S.trace system.new) }
{
    if system.link_status(deny).is_some() {
        return true;
    }
    system.link_status(allow).is_some()
}

// Makes the directories, the file that an atd locks, and the list that shuts nobody out. The list comes last, since a spool
// that has it is not looked at again.
fn make_listed<S: System>(system: &mut S, spool: &str, lock: &str, deny: &str) -> bool
    ensures durable { IsTrue result → AreDurablyMade (S.trace system.old) (S.trace system.new) }
    ensures listed { IsTrue result → EndsWithFile deny.now (S.trace system.new) }
{
    make_directories(system, spool) && put_files(system, lock, deny)
}

fn put_files<S: System>(system: &mut S, lock: &str, deny: &str) -> bool
    ensures durable { IsTrue result → AreDurablyMade (S.trace system.old) (S.trace system.new) }
    ensures listed { IsTrue result → EndsWithFile deny.now (S.trace system.new) }
{
    put_durably(system, lock) && put_durably(system, deny)
}

// Makes each directory of this path that is absent, the first one first.
fn make_directories<S: System>(system: &mut S, path: &str) -> bool
    ensures durable { IsTrue result → AreDurablyMade (S.trace system.old) (S.trace system.new) }
    ensures there { IsTrue result → IsDirectoryThere path.now (S.trace system.new) }
{
    make_parents(system, path) && make_one_directory(system, path)
}

// Makes each directory that the path lies in.
fn make_parents<S: System>(system: &mut S, path: &str) -> bool
    ensures { IsTrue result → AreDurablyMade (S.trace system.old) (S.trace system.new) }
{
    for (end, byte) in path.bytes().enumerate() {
        if byte == b'/' && end > 0 {
            if let Some(part) = path.get(..end) {
                if !make_one_directory(system, part) {
                    return false;
                }
            }
        }
    }
    true
}

fn make_one_directory<S: System>(system: &mut S, path: &str) -> bool
    ensures durable { IsTrue result → AreDurablyMade (S.trace system.old) (S.trace system.new) }
    ensures there { IsTrue result → IsDirectoryThere path.now (S.trace system.new) }
{
    if is_directory_there(system, path) {
        return true;
    }
    if system.make_directory(path) {
        return sync_name(system, path);
    }
    // Another program was faster.
    is_directory_there(system, path) && sync_name(system, path)
}

// Syncs a directory, and the one that it lies in: its name is durable before anything is put into it.
fn sync_name<S: System>(system: &mut S, path: &str) -> bool
    ensures durable { AreDurablyMade (S.trace system.old) (S.trace system.new) }
    ensures name { IsTrue result → IsNameSynced path.now (S.trace system.old) (S.trace system.new) }
{
    system.sync_directory(path) && system.sync_directory(parent_of(path))
}

// Makes an empty file, which is durable then.
fn put_durably<S: System>(system: &mut S, path: &str) -> bool
    ensures { IsTrue result → IsFileDurable path.now (S.trace system.old) (S.trace system.new) }
{
    system.put_file(path) && system.sync_directory(parent_of(path))
}

// The directory that a path lies in.
fn parent_of(path: &str) -> &str
    ensures { result.now ≡ parent_of path.now }
{
    match Path::new(path).parent() {
        Some(parent) => parent.as_str(),
        None => "",
    }
}
