//! The request that words make.
ghost use Rattle.std.specs.Prelude.{◌≤◌, IfOk, IfSome, length, map, string_bytes};
ghost use Rattle.at_words.specs.Answers.{Answers};
ghost use Rattle.at_words.specs.Queues.{HasQueueLetter};
ghost use Rattle.at_words.specs.Requests.{request_by, request_of, request_to};

use crate::{Tool, ToolRequest, WordsFault, at, atd, atday, atq, atrm, batch, tool_of};
use std::alloc::Global;

/// What the words request: the tool that they name, with what is after its name.
pub fn request(alloc: Global, words: &[String]) -> Result<ToolRequest, WordsFault>
    ensures asked { Answers (request_of (map string_bytes words.now)) result }
    ensures letter { IfOk result HasQueueLetter }
{
    request_by(alloc, tool_of(words), words)
}

/// What the words request, where the tool that they name is known, with the place at which its own words begin.
pub fn request_by(
    alloc: Global,
    named: Option<(Tool, usize)>,
    words: &[String],
) -> Result<ToolRequest, WordsFault>
    requires some { IfSome named (λ found. 1 ≤ found.1) }
    requires within { IfSome named (λ found. found.1 ≤ length words.now) }
    ensures asked { Answers (request_by named (map string_bytes words.now)) result }
    ensures letter { IfOk result HasQueueLetter }
{
    match named {
        Some((tool, start)) => request_to(alloc, tool, &words[start - 1..]),
        None => Err(WordsFault::Usage),
    }
}

// What the tool is requested by these words, the first of which is its name.
fn request_to(alloc: Global, tool: Tool, words: &[String]) -> Result<ToolRequest, WordsFault>
    ensures { Answers (request_to tool (map string_bytes words.now)) result }
{
    match tool {
        Tool::At => at::request(alloc, words),
        Tool::Batch => batch::request(alloc, words),
        Tool::Atq => atq::request(alloc, words),
        Tool::Atrm => atrm::request(alloc, words),
        Tool::Atd => atd::request(alloc, words),
        Tool::Atday => atday::request(alloc, words),
    }
}
