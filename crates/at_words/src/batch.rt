//! The words of `batch`.
ghost use Rattle.std.specs.Prelude.{◌≡◌, IfOk, map, string_bytes};
ghost use Rattle.clap.specs.Matches.{found_of};
ghost use Rattle.clap.specs.Simple.{app_of};
ghost use Rattle.clap.specs.Walk.{rows_of};
ghost use Rattle.at_words.specs.Answers.{Answers, asked_of};
ghost use Rattle.at_words.specs.Asked.{batch_asked};
ghost use Rattle.at_words.specs.Commands.{batch_app};

use crate::arguments::{option_text, parsed};
use crate::builder::{bare_command, with_value};
use crate::{ToolRequest, When, WordsFault};
use clap::{ArgMatches, Command};
use host_calls::Text;
use std::alloc::{AllocError, Global};

/// What the words of `batch` request, the first of which is its name.
pub fn request(alloc: Global, words: &[String]) -> Result<ToolRequest, WordsFault>
    ensures { Answers (asked_of batch_app batch_asked (map string_bytes words.now)) result }
{
    let command = tool_command(alloc)?;
    let matches = parsed(command, words)?;
    tool_request(alloc, &matches)
}

fn tool_command<'a>(alloc: Global) -> Result<Command<'a>, AllocError>
    ensures { IfOk result (λ made. app_of made ≡ batch_app) }
{
    with_value(alloc, bare_command(alloc, "batch"), "file", 'f')
}

fn tool_request(alloc: Global, matches: &ArgMatches) -> Result<ToolRequest, WordsFault>
    ensures { Answers (batch_asked (rows_of (found_of matches.now))) result }
{
    Ok(ToolRequest::Submit {
        queue: b'b',
        mail: true,
        file: option_text(alloc, matches, "file")?,
        when: When::Spec(Text::of(alloc, "now")?),
    })
}
