//! The words of `atrm`.
ghost use Rattle.std.specs.Prelude.{◌≡◌, IfOk, map, string_bytes};
ghost use Rattle.clap.specs.Matches.{found_of};
ghost use Rattle.clap.specs.Simple.{app_of};
ghost use Rattle.clap.specs.Walk.{rows_of};
ghost use Rattle.at_words.specs.Answers.{Answers, asked_of};
ghost use Rattle.at_words.specs.Asked.{atrm_asked};
ghost use Rattle.at_words.specs.Commands.{atrm_app};

use crate::arguments::{operands, parsed};
use crate::builder::{bare_command, with_operands};
use crate::jobs::one_or_more;
use crate::{ToolRequest, WordsFault};
use clap::{ArgMatches, Command};
use std::alloc::{AllocError, Global};

/// What the words of `atrm` request, the first of which is its name.
pub fn request(alloc: Global, words: &[String]) -> Result<ToolRequest, WordsFault>
    ensures { Answers (asked_of atrm_app atrm_asked (map string_bytes words.now)) result }
{
    let command = tool_command(alloc)?;
    let matches = parsed(command, words)?;
    tool_request(alloc, &matches)
}

fn tool_command<'a>(alloc: Global) -> Result<Command<'a>, AllocError>
    ensures { IfOk result (λ made. app_of made ≡ atrm_app) }
{
    with_operands(alloc, bare_command(alloc, "atrm"))
}

fn tool_request(alloc: Global, matches: &ArgMatches) -> Result<ToolRequest, WordsFault>
    ensures { Answers (atrm_asked (rows_of (found_of matches.now))) result }
{
    Ok(ToolRequest::Remove(one_or_more(alloc, operands(matches))?))
}
