//! The spool of a tool.
ghost use Rattle.std.specs.Prelude.{◌≡◌, IfOk, map, string_bytes};
ghost use Rattle.launcher.specs.SpoolsOfTools.{IsCallersOwn, IsNamedSpool, IsSpoolOfTool};

use caller_environment::{SpoolSource, ToolName, row_of_tool};
use caller_rules::{CallingUser, ToolSpool, callers_spool};
use host_calls::Text;
use process_input::take_directory;
use std::alloc::{AllocError, Global};
use system_calls::System;

/// The spool of a tool: the one that its first word names, where the tool has such a word, or else the caller's. The word is
/// removed.
pub fn spool_of<S: System>(
    system: &mut S,
    alloc: Global,
    tool: ToolName,
    words: &mut Vec<String>,
    user: &CallingUser,
) -> Result<ToolSpool, AllocError>
    ensures { IfOk result (IsSpoolOfTool tool (map string_bytes words.old.items) (map string_bytes words.new.items)
        user.now (S.trace system.old) (S.trace system.new)) }
{
    match row_of_tool(tool).spool {
        SpoolSource::FirstWord => named_or_callers(system, alloc, words, user),
        SpoolSource::Caller | SpoolSource::Nothing => callers_spool(system, alloc, user),
    }
}

// The spool that the first word names, or else the caller's.
fn named_or_callers<S: System>(
    system: &mut S,
    alloc: Global,
    words: &mut Vec<String>,
    user: &CallingUser,
) -> Result<ToolSpool, AllocError>
    ensures { IfOk result (IsNamedSpool (map string_bytes words.old.items) (map string_bytes words.new.items)
        user.now (S.trace system.old) (S.trace system.new)) }
{
    match take_directory(words) {
        Some(path) => Ok(ToolSpool {
            path: Text::from(path),
            is_own: false,
        }),
        None => callers_spool(system, alloc, user),
    }
}
