//! The words of the program.
ghost use Rattle.std.specs.Prelude.{◌≡◌, IfOk, map, string_bytes};
ghost use Rattle.clap.specs.Simple.{app_of};
ghost use Rattle.at_words.specs.Answers.{Answers};
ghost use Rattle.at_account.specs.Words.{account_app, account_asked};

use at_words::{WordsFault, bare_command, has_flag, parsed, with_long_flag};
use clap::Command;
use std::alloc::{AllocError, Global};

// Whether the words request the lines to be shown, the first of which is the program's name.
pub(crate) fn asks_to_show(alloc: Global, words: &[String]) -> Result<bool, WordsFault>
    ensures { Answers (account_asked (map string_bytes words.now)) result }
{
    if words.is_empty() {
        return Err(WordsFault::Usage);
    }
    let command = account_command(alloc)?;
    let matches = parsed(command, words)?;
    Ok(has_flag(&matches, "show"))
}

fn account_command<'a>(alloc: Global) -> Result<Command<'a>, AllocError>
    ensures { IfOk result (λ made. app_of made ≡ account_app) }
{
    with_long_flag(alloc, bare_command(alloc, "ataccount"), "show")
}
