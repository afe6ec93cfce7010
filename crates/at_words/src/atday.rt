//! The words of `atday`.
ghost use Rattle.std.specs.Prelude.{◌≡◌, IfOk, map, string_bytes};
ghost use Rattle.clap.specs.Matches.{found_of};
ghost use Rattle.clap.specs.Simple.{app_of};
ghost use Rattle.clap.specs.Walk.{rows_of};
ghost use Rattle.at_words.specs.Answers.{Answers, asked_of};
ghost use Rattle.at_words.specs.Commands.{atday_app};
ghost use Rattle.at_words.specs.Daemons.{atday_asked, make_asked};
ghost use Rattle.at_words.specs.Rows.{text_of};

use crate::arguments::{parsed, value};
use crate::builder::{bare_command, with_long};
use crate::{ToolRequest, WordsFault, digits};
use clap::{ArgMatches, Command};
use std::alloc::{AllocError, Global};

/// The most events of a day that is made from a number.
pub const MAX_EVENTS: u32 = 2_000;

/// What the words of `atday` request, the first of which is its name.
pub fn request(alloc: Global, words: &[String]) -> Result<ToolRequest, WordsFault>
    ensures { Answers (asked_of atday_app atday_asked (map string_bytes words.now)) result }
{
    let command = tool_command(alloc)?;
    let matches = parsed(command, words)?;
    tool_request(&matches)
}

fn tool_command<'a>(alloc: Global) -> Result<Command<'a>, AllocError>
    ensures { IfOk result (λ made. app_of made ≡ atday_app) }
{
    with_long(alloc, bare_command(alloc, "atday"), "make")
}

fn tool_request(matches: &ArgMatches) -> Result<ToolRequest, WordsFault>
    ensures { Answers (atday_asked (rows_of (found_of matches.now))) result }
{
    match events_of(value(matches, "make")) {
        Some(events) => Ok(ToolRequest::Make(events)),
        None => Err(WordsFault::Usage),
    }
}

fn events_of(value: Option<&str>) -> Option<u32>
    ensures { result ≡ make_asked (text_of value.entry) }
{
    digits::short(value?, 4, 1, MAX_EVENTS)
}
