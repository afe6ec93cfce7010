//! Whether a tool runs on its spool.
ghost use Rattle.std.specs.Prelude.{◌≡◌, IfOk, OnOk, map, string_bytes};
ghost use Rattle.caller_rules.specs.Admissions.{IsAdmission, IsToolStarted, IsDaemonRequestedWhere};

use crate::daemon_request::request_daemon;
use crate::daemon_start::may_begin;
use crate::machine_lists::may_call;
use crate::spool_paths::SpoolPaths;
use crate::spool_use::{SpoolUse, use_of_spool};
use crate::tool_spool::ToolSpool;
use crate::user::CallingUser;
use caller_environment::ToolName;
use std::alloc::{AllocError, Global};
use system_calls::System;

/// Whether a tool runs on its spool, and why not.
#[derive(Drop)]
pub enum Admission {
    /// The lists of the machine refuse the user.
    Refused,
    /// The spool could not be made, or something of it is not the user's.
    KeptOut,
    /// Another daemon of its kind works on the spool.
    Busy,
    /// It runs. The paths are those of the spool, where they can be found.
    Admitted(Option<SpoolPaths>),
}

/// Whether a tool runs by these words on this spool, for this user. Its locks are taken then, and where it submits jobs a daemon
/// is requested.
pub fn admit<S: System>(
    system: &mut S,
    alloc: Global,
    tool: ToolName,
    words: &[String],
    submits: bool,
    user: &CallingUser,
    spool: &ToolSpool,
) -> Result<Admission, AllocError>
    ensures { IfOk result (IsAdmission tool (map string_bytes words.now) submits user.now spool.now
        (S.trace system.old) (S.trace system.new)) }
{
    if !may_call(system, alloc, tool, user)? {
        return Ok(Admission::Refused);
    }
    match use_of_spool(system, alloc, tool, words, user, spool)? {
        SpoolUse::KeptOut => Ok(Admission::KeptOut),
        SpoolUse::Usable(paths) => start_tool(
            system, alloc, tool, words, submits, user, spool, paths,
        ),
    }
}

// The same of a tool that may use its spool.
fn start_tool<S: System>(
    system: &mut S,
    alloc: Global,
    tool: ToolName,
    words: &[String],
    submits: bool,
    user: &CallingUser,
    spool: &ToolSpool,
    paths: Option<SpoolPaths>,
) -> Result<Admission, AllocError>
    ensures { IfOk result (IsToolStarted tool (map string_bytes words.now) submits user.now spool.now paths
        (S.trace system.old) (S.trace system.new)) }
{
    if !may_begin(system, alloc, tool, words, &paths)? {
        return Ok(Admission::Busy);
    }
    request_where(system, alloc, submits, tool, user, spool)?;
    Ok(Admission::Admitted(paths))
}

// Requests a daemon where the words submit jobs.
fn request_where<S: System>(
    system: &mut S,
    alloc: Global,
    submits: bool,
    tool: ToolName,
    user: &CallingUser,
    spool: &ToolSpool,
) -> Result<(), AllocError>
    ensures { OnOk result (IsDaemonRequestedWhere submits tool user.now spool.now
        (S.trace system.old) (S.trace system.new)) }
{
    if !submits {
        return Ok(());
    }
    request_daemon(system, alloc, tool, user, spool)
}
