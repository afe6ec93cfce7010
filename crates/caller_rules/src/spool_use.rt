//! Whether a tool may use its spool.
ghost use Rattle.std.specs.Prelude.{◌≡◌, IfOk, map, string_bytes};
ghost use Rattle.caller_rules.specs.SpoolUses.{IsOwnMade, IsTargetJudged, IsUseFound};

use crate::own_spool::make_own;
use crate::permission::{may_save_into, may_work_where};
use crate::spool_paths::{SpoolPaths, paths_of};
use crate::tool_spool::ToolSpool;
use crate::user::CallingUser;
use caller_environment::ToolName;
use std::alloc::{AllocError, Global};
use system_calls::System;

/// Whether a tool may use its spool.
#[derive(Drop)]
pub enum SpoolUse {
    /// It may. The paths are those of the spool, where they can be found.
    Usable(Option<SpoolPaths>),
    /// The spool could not be made, or something of it, or of the directory into which it is to be saved, is not the user's.
    KeptOut,
}

/// Whether a tool may use this spool, which is made where it is absent and the caller's own.
pub fn use_of_spool<S: System>(
    system: &mut S,
    alloc: Global,
    tool: ToolName,
    words: &[String],
    user: &CallingUser,
    spool: &ToolSpool,
) -> Result<SpoolUse, AllocError>
    ensures { IfOk result (IsUseFound tool (map string_bytes words.now) user.now spool.now
        (S.trace system.old) (S.trace system.new)) }
{
    if !is_own_made(system, alloc, user, spool) {
        return Ok(SpoolUse::KeptOut);
    }
    let paths = paths_of(system, alloc, spool.path.as_str())?;
    if !may_work_where(system, user.number, &paths) {
        return Ok(SpoolUse::KeptOut);
    }
    if !may_save(system, alloc, tool, words, user)? {
        return Ok(SpoolUse::KeptOut);
    }
    Ok(SpoolUse::Usable(paths))
}

fn is_own_made<S: System>(
    system: &mut S,
    alloc: Global,
    user: &CallingUser,
    spool: &ToolSpool,
) -> bool
    ensures { IsOwnMade user.now spool.now (S.trace system.old) (S.trace system.new) result }
{
    make_own(system, alloc, user, spool)
}

// Whether atcheck may save into the directory that its words name.
fn may_save<S: System>(
    system: &mut S,
    alloc: Global,
    tool: ToolName,
    words: &[String],
    user: &CallingUser,
) -> Result<bool, AllocError>
    ensures { IfOk result (IsTargetJudged tool (map string_bytes words.now) user.now
        (S.trace system.old) (S.trace system.new)) }
{
    match tool {
        ToolName::Atcheck => may_save_into(system, alloc, words, user.number),
        _ => Ok(true),
    }
}
