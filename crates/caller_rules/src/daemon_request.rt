//! The atd that the machine starts for a user who requests it, by a file in a directory that it watches.
ghost use Rattle.std.specs.Prelude.{◌≡◌, IfOk, OnOk, codes, string_bytes};
ghost use Rattle.system_calls.specs.Calls.{status_call};
ghost use Rattle.caller_rules.specs.FileStatuses.{IsDecidedBy, is_directory_status};
ghost use Rattle.caller_rules.specs.DaemonRequests.{IsDaemonRequested, IsRequestNamed, IsRequestPut, IsRequestPutUnless, IsRequestedUnlessUp, IsRequestedWhere, refused_request_line, request_ending, request_name, request_path};
ghost use Rattle.caller_rules.specs.SpoolPaths.{path_within};

use crate::file_status::is_directory_there;
use crate::spool_paths::{joined, path_within};
use crate::tool_spool::ToolSpool;
use crate::user::CallingUser;
use caller_environment::ToolName;
use host_calls::Text;
use std::alloc::{AllocError, Global};
use system_calls::System;

// Where a user requests an atd, and where a directory has the name of each user whose atd runs.
const WAKE: &str = "/run/coefhird/wake";

const UP: &str = "/run/coefhird/up";

/// Requests an atd for a tool that submits to the caller's own spool, where the machine starts daemons and this user has none
/// yet. Root's atd is started by hand. A request that can't be made is named on standard error.
pub fn request_daemon<S: System>(
    system: &mut S,
    alloc: Global,
    tool: ToolName,
    user: &CallingUser,
    spool: &ToolSpool,
) -> Result<(), AllocError>
    /// An atd of the caller's own spool is requested where the machine starts daemons and none of this user's runs. A request
    /// that can't be made is named on standard error.
    ensures { OnOk result (IsDaemonRequested tool user.now spool.now (S.trace system.old) (S.trace system.new)) }
{
    if !spool.is_own || user.is_root() {
        return Ok(());
    }
    let is_watched = starts_daemons(system);
    request_where(system, alloc, tool, &user.name, is_watched)
}

/// Whether the machine starts an atd for each user but root who requests it.
pub fn starts_daemons<S: System>(system: &mut S) -> bool
    ensures { IsDecidedBy (status_call (codes "/run/coefhird/wake")) is_directory_status
        (S.trace system.old) (S.trace system.new) result }
{
    is_directory_there(system, WAKE)
}

fn request_where<S: System>(
    system: &mut S,
    alloc: Global,
    tool: ToolName,
    user: &Text,
    is_watched: bool,
) -> Result<(), AllocError>
    ensures { OnOk result (IsRequestedWhere is_watched tool user.now (S.trace system.old) (S.trace system.new)) }
{
    if !is_watched {
        return Ok(());
    }
    request_unless_up(system, alloc, tool, user)
}

fn request_unless_up<S: System>(
    system: &mut S,
    alloc: Global,
    tool: ToolName,
    user: &Text,
) -> Result<(), AllocError>
    ensures { OnOk result (IsRequestedUnlessUp tool user.now (S.trace system.old) (S.trace system.new)) }
{
    let is_up = is_daemon_up(system, alloc, user)?;
    put_unless(system, alloc, tool, user, is_up)
}

// Whether an atd of this user runs.
fn is_daemon_up<S: System>(system: &mut S, alloc: Global, user: &Text) -> Result<bool, AllocError>
    ensures { IfOk result (IsDecidedBy (status_call (path_within (codes "/run/coefhird/up") user.now))
        is_directory_status (S.trace system.old) (S.trace system.new)) }
{
    let path = path_within(alloc, UP, user.as_str())?;
    Ok(is_directory_at(system, &path))
}

fn is_directory_at<S: System>(system: &mut S, path: &Text) -> bool
    ensures { IsDecidedBy (status_call path.now) is_directory_status (S.trace system.old) (S.trace system.new) result }
{
    is_directory_there(system, path.as_str())
}

fn put_unless<S: System>(
    system: &mut S,
    alloc: Global,
    tool: ToolName,
    user: &Text,
    is_up: bool,
) -> Result<(), AllocError>
    ensures { OnOk result (IsRequestPutUnless is_up tool user.now (S.trace system.old) (S.trace system.new)) }
{
    if is_up {
        return Ok(());
    }
    put_request(system, alloc, tool, user)
}

// Who finds the file looks at its owner alone. Its name has the number of the process, so nobody can take it before.
fn put_request<S: System>(
    system: &mut S,
    alloc: Global,
    tool: ToolName,
    user: &Text,
) -> Result<(), AllocError>
    ensures { OnOk result (IsRequestPut tool user.now (S.trace system.old) (S.trace system.new)) }
{
    let number = system.process_number();
    let path = request_path(alloc, user, number)?;
    let is_put = system.create_file(path.as_str());
    name_refused(system, alloc, tool, &path, is_put)
}

fn request_path(alloc: Global, user: &Text, number: u32) -> Result<Text, AllocError>
    ensures { IfOk result (λ path. path ≡ request_path user.now number) }
{
    let name = request_name(alloc, user, number)?;
    path_within(alloc, WAKE, name.as_str())
}

fn request_name(alloc: Global, user: &Text, number: u32) -> Result<Text, AllocError>
    ensures { IfOk result (λ name. name ≡ request_name user.now number) }
{
    let ending = request_ending(alloc, number)?;
    joined(alloc, user.as_str(), ending.as_str())
}

fn request_ending(alloc: Global, number: u32) -> Result<String, AllocError>
    ensures { IfOk result (λ ending. string_bytes ending ≡ request_ending number) }
{
    format!(in alloc; ".{number}")
}

// Names a request that could not be made.
fn name_refused<S: System>(
    system: &mut S,
    alloc: Global,
    tool: ToolName,
    path: &Text,
    is_put: bool,
) -> Result<(), AllocError>
    ensures { OnOk result (IsRequestNamed is_put tool path.now (S.trace system.old) (S.trace system.new)) }
{
    if is_put {
        return Ok(());
    }
    let line = refused_request_line(alloc, tool, path)?;
    system.write_error(line.as_str());
    Ok(())
}

fn refused_request_line(alloc: Global, tool: ToolName, path: &Text) -> Result<String, AllocError>
    ensures { IfOk result (λ line. string_bytes line ≡ refused_request_line tool path.now) }
{
    let name = tool.as_str();
    let path = path.as_str();
    format!(in alloc; "{name}: no atd could be requested: {path} can not be created\n")
}
