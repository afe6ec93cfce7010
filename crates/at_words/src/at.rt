//! The words of `at`.
ghost use Rattle.std.specs.Prelude.{◌≡◌, IfOk, map, string_bytes};
ghost use Rattle.clap.specs.Matches.{found_of};
ghost use Rattle.clap.specs.Simple.{app_of};
ghost use Rattle.clap.specs.Walk.{rows_of, texts};
ghost use Rattle.at_words.specs.Answers.{Answers, asked_of, or_usage};
ghost use Rattle.at_words.specs.Asked.{action_numbers, at_asked, has_submission_words, has_two_actions};
ghost use Rattle.at_words.specs.Asked.{listing_asked, queue_asked, submission_asked, when_asked};
ghost use Rattle.at_words.specs.Commands.{at_app};
ghost use Rattle.at_words.specs.Rows.{text_of};

use crate::arguments::{has_flag, has_value, operands, option_text, parsed, value};
use crate::builder::{bare_command, with_flag, with_operands, with_value};
use crate::jobs::{filter, one_or_more};
use crate::{Numbers, ToolRequest, When, WordsFault, queue};
use clap::{ArgMatches, Command};
use host_calls::Text;
use std::alloc::{AllocError, Global};

/// What the words of `at` request, the first of which is its name.
pub fn request(alloc: Global, words: &[String]) -> Result<ToolRequest, WordsFault>
    ensures { Answers (asked_of at_app at_asked (map string_bytes words.now)) result }
{
    let command = tool_command(alloc)?;
    let matches = parsed(command, words)?;
    tool_request(alloc, &matches)
}

fn tool_command<'a>(alloc: Global) -> Result<Command<'a>, AllocError>
    ensures { IfOk result (λ made. app_of made ≡ at_app) }
{
    let mail = with_flag(alloc, bare_command(alloc, "at"), "mail", 'm')?;
    let list = with_flag(alloc, mail, "list", 'l')?;
    let remove = with_flag(alloc, list, "remove", 'r')?;
    let show = with_flag(alloc, remove, "show", 'c')?;
    let file = with_value(alloc, show, "file", 'f')?;
    let queue = with_value(alloc, file, "queue", 'q')?;
    let time = with_value(alloc, queue, "time", 't')?;
    with_operands(alloc, time)
}

fn tool_request(alloc: Global, matches: &ArgMatches) -> Result<ToolRequest, WordsFault>
    ensures { Answers (at_asked (rows_of (found_of matches.now))) result }
{
    if asks_two_actions(matches) {
        return Err(WordsFault::Usage);
    }
    if has_flag(matches, "list") {
        return list_request(alloc, matches);
    }
    if has_flag(matches, "remove") {
        return Ok(ToolRequest::Remove(numbers_alone(alloc, matches)?));
    }
    if has_flag(matches, "show") {
        return Ok(ToolRequest::Show(numbers_alone(alloc, matches)?));
    }
    submit_request(alloc, matches)
}

fn asks_two_actions(matches: &ArgMatches) -> bool
    ensures { result ≡ has_two_actions (rows_of (found_of matches.now)) }
{
    let list = has_flag(matches, "list");
    let remove = has_flag(matches, "remove");
    let show = has_flag(matches, "show");
    (list && remove) || (list && show) || (remove && show)
}

// Whether there are words that a submission alone takes.
fn asks_submission(matches: &ArgMatches) -> bool
    ensures { result ≡ has_submission_words (rows_of (found_of matches.now)) }
{
    has_flag(matches, "mail") || has_value(matches, "file") || has_value(matches, "time")
}

fn list_request(alloc: Global, matches: &ArgMatches) -> Result<ToolRequest, WordsFault>
    ensures { Answers (listing_asked (rows_of (found_of matches.now))) result }
{
    if asks_submission(matches) {
        return Err(WordsFault::Usage);
    }
    let filter = filter(alloc, value(matches, "queue"), operands(matches))?;
    Ok(ToolRequest::List(filter))
}

// The numbers of a removal or a showing, which have nothing next to them.
fn numbers_alone(alloc: Global, matches: &ArgMatches) -> Result<Numbers, WordsFault>
    ensures { Answers (action_numbers (rows_of (found_of matches.now))) result }
{
    if asks_submission(matches) || has_value(matches, "queue") {
        return Err(WordsFault::Usage);
    }
    one_or_more(alloc, operands(matches))
}

fn submit_request(alloc: Global, matches: &ArgMatches) -> Result<ToolRequest, WordsFault>
    ensures { Answers (submission_asked (rows_of (found_of matches.now))) result }
{
    let when = when(alloc, value(matches, "time"), operands(matches))?;
    let Some(queue) = queue_option(value(matches, "queue")) else {
        return Err(WordsFault::BadQueue);
    };
    Ok(ToolRequest::Submit {
        queue,
        mail: has_flag(matches, "mail"),
        file: option_text(alloc, matches, "file")?,
        when,
    })
}

// The time, from the value of `-t` or from the operands.
fn when(alloc: Global, time: Option<&str>, operands: &[&str]) -> Result<When, WordsFault>
    ensures { Answers (or_usage (when_asked (text_of time.entry) (texts operands.entry.now))) result }
{
    match time {
        Some(time) if operands.is_empty() => Ok(When::Touch(Text::of(alloc, time)?)),
        None if !operands.is_empty() => Ok(When::Spec(Text::from(operands.join(alloc, " ")?))),
        _ => Err(WordsFault::Usage),
    }
}

fn queue_option(value: Option<&str>) -> Option<u8>
    ensures { result ≡ queue_asked (text_of value.entry) }
{
    match value {
        Some(text) => queue::queue_letter(text),
        None => Some(b'a'),
    }
}
