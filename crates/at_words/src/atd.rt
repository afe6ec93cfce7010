//! The words of `atd`.
ghost use Rattle.std.specs.Prelude.{◌≡◌, IfOk, map, string_bytes};
ghost use Rattle.clap.specs.Matches.{found_of};
ghost use Rattle.clap.specs.Simple.{app_of};
ghost use Rattle.clap.specs.Walk.{rows_of};
ghost use Rattle.at_words.specs.Answers.{Answers, asked_of, or_usage};
ghost use Rattle.at_words.specs.Commands.{atd_app};
ghost use Rattle.at_words.specs.Daemons.{atd_asked, interval_asked, limit_asked, turns_asked};
ghost use Rattle.at_words.specs.Rows.{text_of};

use crate::arguments::{has_flag, parsed, value};
use crate::builder::{bare_command, with_flag, with_long, with_value};
use crate::{ToolRequest, WordsFault, digits};
use clap::{ArgMatches, Command};
use std::alloc::{AllocError, Global};

// The greatest number of turns, and the number where none is given.
const MAX_TURNS: u64 = 4_611_686_018_427_387_904;

// The most seconds between two batch jobs.
const MAX_INTERVAL: u32 = 999_999_999;

/// What the words of `atd` request, the first of which is its name.
pub fn request(alloc: Global, words: &[String]) -> Result<ToolRequest, WordsFault>
    ensures { Answers (asked_of atd_app atd_asked (map string_bytes words.now)) result }
{
    let command = tool_command(alloc)?;
    let matches = parsed(command, words)?;
    tool_request(&matches)
}

fn tool_command<'a>(alloc: Global) -> Result<Command<'a>, AllocError>
    ensures { IfOk result (λ made. app_of made ≡ atd_app) }
{
    let once = with_flag(alloc, bare_command(alloc, "atd"), "once", 's')?;
    let limit = with_value(alloc, once, "limit", 'l')?;
    let interval = with_value(alloc, limit, "interval", 'b')?;
    with_long(alloc, interval, "turns")
}

fn tool_request(matches: &ArgMatches) -> Result<ToolRequest, WordsFault>
    ensures { Answers (atd_asked (rows_of (found_of matches.now))) result }
{
    match daemon(matches) {
        Some(daemon) => Ok(daemon),
        None => Err(WordsFault::Usage),
    }
}

fn daemon(matches: &ArgMatches) -> Option<ToolRequest>
    ensures { or_usage result ≡ atd_asked (rows_of (found_of matches.now)) }
{
    let limit = limit_of(value(matches, "limit"))?;
    let interval = interval_of(value(matches, "interval"))?;
    let turns = turns_of(value(matches, "turns"))?;
    Some(ToolRequest::Daemon {
        limit,
        interval,
        once: has_flag(matches, "once"),
        turns,
    })
}

fn limit_of(value: Option<&str>) -> Option<u32>
    ensures { result ≡ limit_asked (text_of value.entry) }
{
    match value {
        Some(text) => digits::limit(text),
        None => Some(150),
    }
}

fn interval_of(value: Option<&str>) -> Option<u32>
    ensures { result ≡ interval_asked (text_of value.entry) }
{
    match value {
        Some(text) => digits::short(text, 9, 0, MAX_INTERVAL),
        None => Some(60),
    }
}

/// The number of turns that the value of `--turns` writes, the greatest where none is given. None where it is no number
/// from 1 to that.
pub fn turns_of(value: Option<&str>) -> Option<u64>
    ensures { result ≡ turns_asked (text_of value.entry) }
{
    match value {
        Some(text) => digits::number_within(text, 19, 1, MAX_TURNS),
        None => Some(MAX_TURNS),
    }
}
