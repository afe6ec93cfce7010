//! Whether a tool may begin on its spool beside the daemons that work on it.
ghost use Rattle.std.specs.Prelude.{◌≡◌, IfOk, map, option_copied, string_bytes};
ghost use Rattle.caller_rules.specs.DaemonStarts.{IsLockedByName, IsToolBegun, IsToolBegunBy, begins_trim, has_option, is_daemon_run};

use crate::daemon_locks::{lock_name, take_atd_locks, take_daemon_lock};
use crate::spool_paths::SpoolPaths;
use caller_environment::ToolName;
use std::alloc::{AllocError, Global};
use system_calls::System;

/// Whether a tool may begin by these words on the spool of these paths, where it exists: a daemon takes its locks, and does not
/// begin where another one holds them.
pub fn may_begin<S: System>(
    system: &mut S,
    alloc: Global,
    tool: ToolName,
    words: &[String],
    paths: &Option<SpoolPaths>,
) -> Result<bool, AllocError>
    ensures { IfOk result (IsToolBegun tool (map string_bytes words.now) paths.now
        (S.trace system.old) (S.trace system.new)) }
{
    match paths {
        Some(paths) if is_daemon_run(tool, words) => begin_daemon(system, alloc, tool, paths),
        _ => Ok(true),
    }
}

// Takes the locks of a daemon.
fn begin_daemon<S: System>(
    system: &mut S,
    alloc: Global,
    tool: ToolName,
    paths: &SpoolPaths,
) -> Result<bool, AllocError>
    ensures { IfOk result (IsToolBegunBy tool paths.now (S.trace system.old) (S.trace system.new)) }
{
    match tool {
        ToolName::Atd => take_atd_locks(system, alloc, paths),
        _ => take_lock_by_name(system, alloc, lock_name(tool), paths),
    }
}

// Takes the lock of the file of this name, if there is one.
fn take_lock_by_name<S: System>(
    system: &mut S,
    alloc: Global,
    name: Option<&str>,
    paths: &SpoolPaths,
) -> Result<bool, AllocError>
    ensures { IfOk result (IsLockedByName (option_copied name.entry) paths.now
        (S.trace system.old) (S.trace system.new)) }
{
    match name {
        Some(name) => take_daemon_lock(system, alloc, name, paths),
        None => Ok(true),
    }
}

/// Whether the words of a tool run a daemon: atd always, and another one with the option without which it works once.
pub fn is_daemon_run(tool: ToolName, words: &[String]) -> bool
    ensures { result ≡ is_daemon_run tool (map string_bytes words.now) }
{
    match tool {
        ToolName::Atd => true,
        ToolName::Atpost => has_option(words, "--send") && !begins_trim(words),
        ToolName::Atcron => has_option(words, "-f"),
        _ => false,
    }
}

/// Whether the words of atpost request a trim, by the one after its name.
pub fn begins_trim(words: &[String]) -> bool
    ensures { result ≡ begins_trim (map string_bytes words.now) }
{
    match words {
        [_, word, ..] => word.as_str() == "--trim",
        _ => false,
    }
}

/// Whether a word begins with the option.
pub fn has_option(words: &[String], option: &str) -> bool
    ensures { result ≡ has_option option.now (map string_bytes words.now) }
{
    match words {
        [] => false,
        [word, later @ ..] => {
            word.as_bytes().starts_with(option.as_bytes()) || has_option(later, option)
        }
    }
}
