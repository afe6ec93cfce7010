//! The words of `atq`.
ghost use Rattle.std.specs.Prelude.{◌≡◌, IfOk, map, string_bytes};
ghost use Rattle.clap.specs.Matches.{found_of};
ghost use Rattle.clap.specs.Simple.{app_of};
ghost use Rattle.clap.specs.Walk.{rows_of};
ghost use Rattle.at_words.specs.Answers.{Answers, asked_of};
ghost use Rattle.at_words.specs.Asked.{atq_asked};
ghost use Rattle.at_words.specs.Commands.{atq_app};

use crate::arguments::{parsed, value};
use crate::builder::{bare_command, with_value};
use crate::jobs::filter;
use crate::{ToolRequest, WordsFault};
use clap::{ArgMatches, Command};
use std::alloc::{AllocError, Global};

/// What the words of `atq` request, the first of which is its name.
pub fn request(alloc: Global, words: &[String]) -> Result<ToolRequest, WordsFault>
    ensures { Answers (asked_of atq_app atq_asked (map string_bytes words.now)) result }
{
    let command = tool_command(alloc)?;
    let matches = parsed(command, words)?;
    tool_request(alloc, &matches)
}

fn tool_command<'a>(alloc: Global) -> Result<Command<'a>, AllocError>
    ensures { IfOk result (λ made. app_of made ≡ atq_app) }
{
    with_value(alloc, bare_command(alloc, "atq"), "queue", 'q')
}

fn tool_request(alloc: Global, matches: &ArgMatches) -> Result<ToolRequest, WordsFault>
    ensures { Answers (atq_asked (rows_of (found_of matches.now))) result }
{
    let filter = filter(alloc, value(matches, "queue"), &[])?;
    Ok(ToolRequest::List(filter))
}
