//! The words of the checker.
ghost use Rattle.std.specs.Prelude.{◌≡◌, IfOk, map, string_bytes};
ghost use Rattle.at_words.specs.Answers.{Answers};
ghost use Rattle.clap.specs.Simple.{app_of};
ghost use Rattle.spool_check.specs.Words.{check_app, check_asked};

use at_words::{WordsFault, bare_command, has_flag, parsed, with_long_flag};
use clap::Command;
use std::alloc::{AllocError, Global};

// Whether the words request a salvage. The first of them is the program's name; without it they request nothing.
pub(crate) fn asks_to_salvage(alloc: Global, words: &[String]) -> Result<bool, WordsFault>
    ensures { Answers (check_asked (map string_bytes words.now)) result }
{
    if words.is_empty() {
        return Err(WordsFault::Usage);
    }
    let command = check_command(alloc)?;
    let matches = parsed(command, words)?;
    Ok(has_flag(&matches, "salvage"))
}

fn check_command<'a>(alloc: Global) -> Result<Command<'a>, AllocError>
    ensures { IfOk result (λ made. app_of made ≡ check_app) }
{
    with_long_flag(alloc, bare_command(alloc, "atcheck"), "salvage")
}
