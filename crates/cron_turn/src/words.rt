//! The words of the program.
ghost use Rattle.std.specs.Prelude.{◌≡◌, IfOk, map, string_bytes};
ghost use Rattle.clap.specs.Matches.{found_of};
ghost use Rattle.clap.specs.Simple.{app_of};
ghost use Rattle.clap.specs.Walk.{rows_of};
ghost use Rattle.at_words.specs.Answers.{Answers};
ghost use Rattle.cron_turn.specs.Words.{cron_app, cron_asked, crontab_asked};

use at_words::{WordsFault, bare_command, parsed, turns_of, value, with_long, with_value};
use clap::{ArgMatches, Command};
use host_calls::Text;
use std::alloc::{AllocError, Global};

/// A crontab, by its path, and how many sessions are to be made on it.
#[derive(Drop)]
pub(crate) struct CronRequest {
    pub(crate) file: Text,
    pub(crate) turns: u64,
}

// What the words request, the first of which is the program's name; without it they request nothing.
pub(crate) fn cron_request(alloc: Global, words: &[String]) -> Result<CronRequest, WordsFault>
    ensures { Answers (cron_asked (map string_bytes words.now)) result }
{
    if words.is_empty() {
        return Err(WordsFault::Usage);
    }
    let command = cron_command(alloc)?;
    let matches = parsed(command, words)?;
    cron_request_of(alloc, &matches)
}

fn cron_command<'a>(alloc: Global) -> Result<Command<'a>, AllocError>
    ensures { IfOk result (λ made. app_of made ≡ cron_app) }
{
    let file = with_value(alloc, bare_command(alloc, "atcron"), "file", 'f')?;
    with_long(alloc, file, "turns")
}

fn cron_request_of(alloc: Global, matches: &ArgMatches) -> Result<CronRequest, WordsFault>
    ensures { Answers (crontab_asked (rows_of (found_of matches.now))) result }
{
    let Some(file) = value(matches, "file") else {
        return Err(WordsFault::Usage);
    };
    let Some(turns) = turns_of(value(matches, "turns")) else {
        return Err(WordsFault::Usage);
    };
    let file = Text::of(alloc, file)?;
    Ok(CronRequest { file, turns })
}
