//! The words of a listing.
ghost use Rattle.std.specs.Prelude.{◌≡◌, IfOk, map, string_bytes};
ghost use Rattle.clap.specs.Matches.{found_of};
ghost use Rattle.clap.specs.Simple.{app_of};
ghost use Rattle.clap.specs.Walk.{rows_of};
ghost use Rattle.at_words.specs.Answers.{Answers};
ghost use Rattle.at_words.specs.Rows.{text_of};
ghost use Rattle.cron_turn.specs.ListingWords.{count_asked, few_of, next_app, next_asked, listing_rows_asked};

use at_words::{WordsFault, bare_command, parsed, turns_of, value, with_long, with_value};
use clap::{ArgMatches, Command};
use host_calls::Text;
use std::alloc::{AllocError, Global};

/// The most minutes that are listed of an entry.
pub const MAX_NEXT: u64 = 1_000;

/// A crontab, by its path, and how many minutes of each entry are requested.
#[derive(Drop)]
pub(crate) struct NextRequest {
    pub(crate) file: Text,
    pub(crate) count: u32,
}

// What the words request, the first of which is the program's name; without it they request nothing.
pub(crate) fn listing_request(alloc: Global, words: &[String]) -> Result<NextRequest, WordsFault>
    ensures { Answers (next_asked (map string_bytes words.now)) result }
{
    if words.is_empty() {
        return Err(WordsFault::Usage);
    }
    let command = listing_command(alloc)?;
    let matches = parsed(command, words)?;
    listing_request_of(alloc, &matches)
}

fn listing_command<'a>(alloc: Global) -> Result<Command<'a>, AllocError>
    ensures { IfOk result (λ made. app_of made ≡ next_app) }
{
    let file = with_value(alloc, bare_command(alloc, "atcron"), "file", 'f')?;
    with_long(alloc, file, "next")
}

fn listing_request_of(alloc: Global, matches: &ArgMatches) -> Result<NextRequest, WordsFault>
    ensures { Answers (listing_rows_asked (rows_of (found_of matches.now))) result }
{
    let Some(file) = value(matches, "file") else {
        return Err(WordsFault::Usage);
    };
    let Some(count) = count_of(value(matches, "next")) else {
        return Err(WordsFault::Usage);
    };
    let file = Text::of(alloc, file)?;
    Ok(NextRequest { file, count })
}

fn count_of(value: Option<&str>) -> Option<u32>
    ensures { result ≡ count_asked (text_of value.entry) }
{
    match value {
        Some(text) => few_of(turns_of(Some(text))),
        None => None,
    }
}

fn few_of(number: Option<u64>) -> Option<u32>
    ensures { result ≡ few_of number }
{
    match number {
        Some(number) if number <= MAX_NEXT => Some(number as u32),
        _ => None,
    }
}
