//! Which words submit jobs, and with mail.
ghost use Rattle.std.specs.Prelude.{◌≡◌, map, string_bytes};
ghost use Rattle.launcher.specs.Submissions.{IsAnswered, IsSubmission, IsSubmissionBy};

use at_words::{ToolRequest, request};
use caller_environment::{Submits, ToolName, row_of_tool};
use std::alloc::Global;

/// What words of a tool submit.
#[derive(Clone, Copy, Debug, PartialEq, Eq)]
pub struct SubmittedWords {
    /// Whether they submit jobs.
    pub submits: bool,
    /// Whether mail is sent for the job whatever it prints.
    pub mails: bool,
}

/// What these words of a tool submit.
pub fn submission_of(alloc: Global, tool: ToolName, words: &[String]) -> SubmittedWords
    ensures { IsSubmission tool (map string_bytes words.now) result }
{
    submission_by(alloc, row_of_tool(tool).submits, words)
}

fn submission_by(alloc: Global, submits: Submits, words: &[String]) -> SubmittedWords
    ensures { IsSubmissionBy submits (map string_bytes words.now) result }
{
    match submits {
        Submits::Never => submitting(false, false),
        Submits::ByWords => requested(alloc, words),
        Submits::Always => submitting(true, false),
    }
}

fn submitting(submits: bool, mails: bool) -> SubmittedWords
    ensures submits { result.submits ≡ submits }
    ensures mails { result.mails ≡ mails }
{
    SubmittedWords { submits, mails }
}

fn requested(alloc: Global, words: &[String]) -> SubmittedWords
    ensures { IsAnswered (map string_bytes words.now) result }
{
    match request(alloc, words) {
        Ok(ToolRequest::Submit { mail, .. }) => submitting(true, mail),
        _ => submitting(false, false),
    }
}
