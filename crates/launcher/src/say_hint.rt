//! On a terminal, a line that refuses has one after it that says what to do.
ghost use Rattle.std.specs.Prelude.{OnOk};
ghost use Rattle.system_calls.specs.Calls.{Continues};

use crate::spool_trouble::trouble_of;
use caller_environment::ToolName;
use caller_rules::{CallingUser, SpoolPaths, ToolSpool, lock_name, path_within, paths_of};
use host_calls::Text;
use listing_text::Cause;
use std::alloc::{AllocError, Global};
use system_calls::System;
use tool_help::{
    Hint, ListsFound, access_hint, help_hint, hint_line, hint_of, lock_hint, spool_hint,
};

/// Says what to do after a tool ended so, if standard error is a terminal. The lists of users that refused, if they did, are
/// those of this directory.
pub fn say_hint<S: System>(
    rt: &HostRuntime,
    system: &mut S,
    tool: ToolName,
    cause: &Cause,
    user: &CallingUser,
    spool: &ToolSpool,
    lists: &str,
) -> Result<(), AllocError> {
    if !system.is_terminal() {
        return Ok(());
    }
    let Some(hint) = hint_of(cause) else {
        return Ok(());
    };
    let text = text_of_hint(rt, system, tool, hint, user, spool, lists)?;
    let line = hint_line(rt.alloc(), tool, text.as_str())?;
    system.write_error(line.as_str());
    Ok(())
}

fn text_of_hint<S: System>(
    rt: &HostRuntime,
    system: &mut S,
    tool: ToolName,
    hint: Hint,
    user: &CallingUser,
    spool: &ToolSpool,
    lists: &str,
) -> Result<String, AllocError> {
    let alloc = rt.alloc();
    match hint {
        Hint::Help => help_hint(alloc, tool),
        Hint::Lists => access_hint(
            alloc,
            user.name.as_str(),
            lists,
            lists_in(system, alloc, lists)?,
        ),
        Hint::Spool => {
            let (trouble, path) = trouble_of(rt, system, user, spool)?;
            spool_hint(alloc, trouble, path.as_str())
        }
        Hint::Lock => match paths_of(system, alloc, spool.path.as_str())? {
            Some(paths) => lock_hint(alloc, locked_file(alloc, tool, &paths)?.as_str()),
            None => lock_hint(alloc, spool.path.as_str()),
        },
        Hint::Text(text) => String::from_str(alloc, text),
    }
}

// The file whose lock keeps this tool from the spool.
fn locked_file(alloc: Global, tool: ToolName, paths: &SpoolPaths) -> Result<Text, AllocError> {
    match lock_name(tool) {
        Some(name) => path_within(alloc, paths.spool.as_str(), name),
        None => Text::of(alloc, paths.lock.as_str()),
    }
}

// Which of the lists of users a directory has.
fn lists_in<S: System>(
    system: &mut S,
    alloc: Global,
    directory: &str,
) -> Result<ListsFound, AllocError>
    ensures { OnOk result (Continues (S.trace system.old) (S.trace system.new)) }
{
    let allow = path_within(alloc, directory, "at.allow")?;
    if system.status(allow.as_str()).is_some() {
        return Ok(ListsFound::Allow);
    }
    let deny = path_within(alloc, directory, "at.deny")?;
    if system.status(deny.as_str()).is_some() {
        return Ok(ListsFound::Deny);
    }
    Ok(ListsFound::Neither)
}
