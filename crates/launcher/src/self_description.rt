//! What a tool prints of itself, where a word alone requests it: its help, its version, and the caller's spool.
ghost use Rattle.std.specs.Prelude.{◌≡◌, IfOk, map, string_bytes};
ghost use Rattle.launcher.specs.Descriptions.{description_asked, description_of};
ghost use Rattle.launcher.specs.ExitCodes.{IsStatus};

use crate::built_record::built_record;
use crate::refusal::{refuse_tool, refuse_unknown_caller};
use caller_environment::ToolName;
use caller_rules::callers_spool;
use listing_text::{Cause, Status};
use process_input::user_of_process;
use std::alloc::AllocError;
use system_calls::System;
use tool_help::{help_text, version_text};

/// What a tool is asked to print of itself.
#[derive(Clone, Copy, Debug, PartialEq, Eq)]
pub enum Description {
    Help,
    Version,
    Spool,
}

/// What the words ask a tool to print of itself, by the one word after its name.
pub fn description_asked(words: &[String]) -> Option<Description>
    /// A single word requests help, the version or the spool, and other words none of these.
    ensures { result ≡ description_asked (map string_bytes words.now) }
{
    match words {
        [_, word] => description_of(word.as_str()),
        _ => None,
    }
}

fn description_of(word: &str) -> Option<Description>
    ensures { result ≡ description_of word.now }
{
    if word == "--help" {
        Some(Description::Help)
    } else if word == "--version" {
        Some(Description::Version)
    } else if word == "--spool" {
        Some(Description::Spool)
    } else {
        None
    }
}

/// Prints it.
pub fn describe<S: System>(
    rt: &HostRuntime,
    system: &mut S,
    tool: ToolName,
    asked: Description,
) -> Result<Status, AllocError>
    ensures { IfOk result IsStatus }
{
    match asked {
        Description::Help => Ok(put_description(rt, tool, help_text(tool).as_bytes())),
        Description::Version => {
            let record = built_record(rt);
            let text = version_text(rt.alloc(), tool, record.as_ref().map(|it| it.as_bytes()))?;
            Ok(put_description(rt, tool, text.as_slice()))
        }
        Description::Spool => put_spool(rt, system, tool),
    }
}

fn put_spool<S: System>(
    rt: &HostRuntime,
    system: &mut S,
    tool: ToolName,
) -> Result<Status, AllocError>
    ensures { IfOk result IsStatus }
{
    let Some(user) = user_of_process(rt)? else {
        return Ok(refuse_unknown_caller(rt, tool));
    };
    let spool = callers_spool(system, rt.alloc(), &user)?;
    let line = format!(in rt.alloc(); "{}\n", spool.path.as_str())?;
    Ok(put_description(rt, tool, line.as_bytes()))
}

// Puts a text on standard output.
fn put_description(rt: &HostRuntime, tool: ToolName, text: &[u8]) -> Status
    ensures { IsStatus result }
{
    match rt.write_all(text) {
        Ok(()) => Status::of(Cause::Done),
        Err(_) => refuse_tool(rt, tool, Cause::OutputFault),
    }
}
