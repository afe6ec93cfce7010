//! The words of the program that trims.
ghost use Rattle.std.specs.Prelude.{◌≡◌, IfOk, map, string_bytes};
ghost use Rattle.clap.specs.Matches.{found_of};
ghost use Rattle.clap.specs.Simple.{app_of};
ghost use Rattle.clap.specs.Walk.{rows_of};
ghost use Rattle.at_words.specs.Answers.{Answers};
ghost use Rattle.at_mail.specs.TrimWords.{trim_rows_asked, trim_app, trim_asked};

use at_words::{WordsFault, bare_command, has_flag, parsed, with_long_flag};
use clap::{ArgMatches, Command};
use std::alloc::{AllocError, Global};

// Whether the words request a trim, the first of which is the program's name.
pub(crate) fn ask_for_a_trim(alloc: Global, words: &[String]) -> Result<(), WordsFault>
    ensures { Answers (trim_asked (map string_bytes words.now)) result }
{
    if words.is_empty() {
        return Err(WordsFault::Usage);
    }
    let command = trim_command(alloc)?;
    let matches = parsed(command, words)?;
    is_trim_asked(&matches)
}

fn trim_command<'a>(alloc: Global) -> Result<Command<'a>, AllocError>
    ensures { IfOk result (λ made. app_of made ≡ trim_app) }
{
    with_long_flag(alloc, bare_command(alloc, "atpost"), "trim")
}

// Whether the matches request it.
fn is_trim_asked(matches: &ArgMatches) -> Result<(), WordsFault>
    ensures { Answers (trim_rows_asked (rows_of (found_of matches.now))) result }
{
    if has_flag(matches, "trim") {
        Ok(())
    } else {
        Err(WordsFault::Usage)
    }
}
