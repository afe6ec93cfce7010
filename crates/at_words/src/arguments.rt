//! Words read by a command, and what its matches say of an argument.
ghost use Rattle.std.specs.Prelude.{◌≡◌, ◌≢◌, [], true, IfOk, map, string_bytes};
ghost use Rattle.std.specs.Option.{option_map_or};
ghost use Rattle.clap.specs.Faults.{is_simple_and_free};
ghost use Rattle.clap.specs.Matches.{found_of};
ghost use Rattle.clap.specs.Simple.{app_of};
ghost use Rattle.clap.specs.Walk.{first_of, rows_of, texts};
ghost use Rattle.clap.specs.Values.{kind_of};
ghost use Rattle.clap.specs.declared.error.kind.ErrorKind.TheVariants.{OutOfMemory};
ghost use Rattle.at_words.specs.Rows.{is_given, is_set, operands_of, text_of};
ghost use Rattle.at_words.specs.ParseResult.{Parses};

use crate::WordsFault;
use clap::error::ErrorKind;
use clap::{ArgMatches, Command, Error};
use host_calls::Text;
use std::alloc::{AllocError, Global};

/// The matches that the command has on the words, where it takes them.
pub fn parsed<'a>(command: Command<'a>, words: &'a [String]) -> Result<ArgMatches<'a>, WordsFault>
    requires { is_simple_and_free (app_of command) ≡ true }
    ensures { Parses (app_of command.entry) (map string_bytes words.entry.now) result }
{
    match command.try_get_matches_from(words) {
        Ok(matches) => Ok(matches),
        Err(error) => Err(fault_by(&error)),
    }
}

fn fault_by(error: &Error) -> WordsFault
    ensures memory { kind_of error.now ≡ OutOfMemory → result ≡ WordsFault.Memory }
    ensures usage { kind_of error.now ≢ OutOfMemory → result ≡ WordsFault.Usage }
{
    match error.kind() {
        ErrorKind::OutOfMemory => WordsFault::Memory,
        _ => WordsFault::Usage,
    }
}

/// Whether the flag was given.
pub fn has_flag(matches: &ArgMatches, id: &str) -> bool
    ensures { result ≡ is_set id.now (rows_of (found_of matches.now)) }
{
    match value(matches, id) {
        Some(text) => text == "true",
        None => false,
    }
}

/// The value of the option.
pub fn value<'a>(matches: &ArgMatches<'a>, id: &str) -> Option<&'a str>
    ensures { text_of result ≡ first_of id.now (rows_of (found_of matches.now)) }
{
    matches.get_str(id)
}

/// A copy of the value of the option.
pub fn option_text(
    alloc: Global,
    matches: &ArgMatches,
    id: &str,
) -> Result<Option<Text>, AllocError>
    ensures { IfOk result (λ text. text ≡ first_of id.now (rows_of (found_of matches.now))) }
{
    match value(matches, id) {
        Some(text) => Ok(Some(Text::of(alloc, text)?)),
        None => Ok(None),
    }
}

/// Whether the option was given.
pub fn has_value(matches: &ArgMatches, id: &str) -> bool
    ensures { result ≡ is_given id.now (rows_of (found_of matches.now)) }
{
    value(matches, id).is_some()
}

/// The operands.
pub fn operands<'m, 'a>(matches: &'m ArgMatches<'a>) -> &'m [&'a str]
    ensures { texts result.now ≡ operands_of (rows_of (found_of matches.entry.now)) }
{
    or_none(matches.get_strs("operands"))
}

fn or_none<'m, 'a>(operands: Option<&'m [&'a str]>) -> &'m [&'a str]
    ensures { result.now ≡ option_map_or (λ operands. operands.now) operands.entry [] }
{
    operands.unwrap_or_default()
}
