//! What follows an accepted submission: a terminal is warned where no atd will run the job.
ghost use Rattle.std.specs.Prelude.{OnOk};
ghost use Rattle.system_calls.specs.Calls.{Continues};

use crate::held_locks::is_locked;
use caller_environment::ToolName;
use caller_rules::{
    CallingUser, DAEMON_LOCK, SpoolPaths, ToolSpool, is_directory_there, path_within, paths_of,
    starts_daemons,
};
use std::alloc::{AllocError, Global};
use system_calls::System;

/// Warns on a terminal where no atd will run the job.
pub fn after_submission<S: System>(
    system: &mut S,
    alloc: Global,
    tool: ToolName,
    user: &CallingUser,
    spool: &ToolSpool,
) -> Result<(), AllocError> {
    if system.is_terminal() && !has_daemon(system, alloc, user, spool)? {
        warn(system, alloc, tool, user, spool)?;
    }
    Ok(())
}

// Whether an atd serves the spool, or the machine starts one.
fn has_daemon<S: System>(
    system: &mut S,
    alloc: Global,
    user: &CallingUser,
    spool: &ToolSpool,
) -> Result<bool, AllocError> {
    if spool.is_own && !user.is_root() && starts_daemons(system) {
        return Ok(true);
    }
    match paths_of(system, alloc, spool.path.as_str())? {
        Some(paths) => is_served(system, alloc, &paths),
        None => Ok(true),
    }
}

// Whether an atd holds one of its locks.
fn is_served<S: System>(
    system: &mut S,
    alloc: Global,
    paths: &SpoolPaths,
) -> Result<bool, AllocError>
    ensures { OnOk result (Continues (S.trace system.old) (S.trace system.new)) }
{
    let within = path_within(alloc, paths.spool.as_str(), DAEMON_LOCK)?;
    if is_path_locked(system, alloc, within.as_str())? {
        return Ok(true);
    }
    is_path_locked(system, alloc, paths.outputs.as_str())
}

// Whether any process holds a lock of what has this path.
fn is_path_locked<S: System>(system: &mut S, alloc: Global, path: &str) -> Result<bool, AllocError>
    ensures { OnOk result (Continues (S.trace system.old) (S.trace system.new)) }
{
    match system.status(path) {
        Some(found) => is_locked(system, alloc, found.inode),
        None => Ok(false),
    }
}

fn warn<S: System>(
    system: &mut S,
    alloc: Global,
    tool: ToolName,
    user: &CallingUser,
    spool: &ToolSpool,
) -> Result<(), AllocError>
    ensures { OnOk result (Continues (S.trace system.old) (S.trace system.new)) }
{
    let start = start_command(system, user, spool);
    let name = tool.as_str();
    let line = if spool.is_own {
        format!(in alloc; "{name}: no atd runs, so the job waits: start one by {start}\n")?
    } else {
        let path = spool.path.as_str();
        format!(in alloc;
            "{name}: no atd runs, so the job waits: start one by ATSPOOL='{path}' {start}\n"
        )?
    };
    system.write_error(line.as_str());
    Ok(())
}

// How an atd of the spool is started.
fn start_command<S: System>(system: &mut S, user: &CallingUser, spool: &ToolSpool) -> &'static str
    ensures { Continues (S.trace system.old) (S.trace system.new) }
{
    if !spool.is_own || !is_directory_there(system, "/run/systemd/system") {
        "setsid -f atd >/dev/null"
    } else if user.is_root() {
        "systemctl start atd"
    } else {
        "systemctl --user start atd"
    }
}
