//! The words of the program.
ghost use Rattle.std.specs.Prelude.{◌≡◌, ◌≤◌, IfOk, IfSome, map, string_bytes};
ghost use Rattle.clap.specs.Matches.{found_of};
ghost use Rattle.clap.specs.Simple.{app_of};
ghost use Rattle.clap.specs.Walk.{rows_of, texts};
ghost use Rattle.at_words.specs.Answers.{Answers};
ghost use Rattle.at_words.specs.Rows.{text_of};
ghost use Rattle.at_stat.specs.Words.{form_asked, queue_filter, stat_app, stat_asked, stat_matches_asked, wait_asked, which_asked};

use crate::Form;
use crate::request::StatRequest;
use at_words::{
    Filter, WordsFault, bare_command, has_flag, numbers_between, operands, parsed, queue_letter,
    turns_of, value, with_flag, with_long, with_long_flag, with_operands, with_value,
};
use clap::{ArgMatches, Command};
use spool_model::LAST_NUMBER;
use std::alloc::{AllocError, Global};

// What the words request, the first of which is the program's name.
pub(crate) fn stat_request(alloc: Global, words: &[String]) -> Result<StatRequest, WordsFault>
    ensures asked { Answers (stat_asked (map string_bytes words.now)) result }
    ensures turns { IfOk result (λ request. IfSome request.wait (λ turns. 1 ≤ turns)) }
{
    if words.is_empty() {
        return Err(WordsFault::Usage);
    }
    let command = stat_command(alloc)?;
    let matches = parsed(command, words)?;
    stat_request_of(alloc, &matches)
}

fn stat_command<'a>(alloc: Global) -> Result<Command<'a>, AllocError>
    ensures { IfOk result (λ made. app_of made ≡ stat_app) }
{
    let wait = with_flag(alloc, bare_command(alloc, "atstat"), "wait", 'w')?;
    let turns = with_long(alloc, wait, "turns")?;
    let queue = with_value(alloc, turns, "queue", 'q')?;
    let json = with_long_flag(alloc, queue, "json")?;
    with_operands(alloc, json)
}

// What the matches request.
fn stat_request_of(alloc: Global, matches: &ArgMatches) -> Result<StatRequest, WordsFault>
    ensures asked { Answers (stat_matches_asked (rows_of (found_of matches.now))) result }
    ensures turns { IfOk result (λ request. IfSome request.wait (λ turns. 1 ≤ turns)) }
{
    let wait = wait_of(has_flag(matches, "wait"), value(matches, "turns"))?;
    let which = requested_jobs(alloc, value(matches, "queue"), operands(matches))?;
    Ok(StatRequest {
        wait,
        form: form_of(has_flag(matches, "json")),
        which,
    })
}

// The greatest number of sessions, where the ends of jobs are waited for.
fn wait_of(waits: bool, turns: Option<&str>) -> Result<Option<u64>, WordsFault>
    ensures asked { result ≡ wait_asked waits (text_of turns.entry) }
    ensures turns { IfOk result (λ wait. IfSome wait (λ turns. 1 ≤ turns)) }
{
    if !waits {
        return if turns.is_some() {
            Err(WordsFault::Usage)
        } else {
            Ok(None)
        };
    }
    match turns_of(turns) {
        Some(turns) => Ok(Some(turns)),
        None => Err(WordsFault::Usage),
    }
}

fn form_of(json: bool) -> Form
    ensures { result ≡ form_asked json }
{
    if json { Form::Json } else { Form::Text }
}

// The jobs of a queue, or of these numbers, or all.
fn requested_jobs(
    alloc: Global,
    queue: Option<&str>,
    operands: &[&str],
) -> Result<Filter, WordsFault>
    ensures { Answers (which_asked (text_of queue.entry) (texts operands.entry.now)) result }
{
    match queue {
        Some(text) if operands.is_empty() => stat_queue(text),
        Some(_) => Err(WordsFault::Usage),
        None if operands.is_empty() => Ok(Filter::All),
        None => Ok(Filter::Numbers(numbers_between(alloc, operands, 0, LAST_NUMBER)?)),
    }
}

// The jobs of a queue.
fn stat_queue(text: &str) -> Result<Filter, WordsFault>
    ensures { result ≡ queue_filter text.now }
{
    match queue_letter(text) {
        Some(letter) => Ok(Filter::Queue(letter)),
        None => Err(WordsFault::BadQueue),
    }
}
