//! Commands without help, and the arguments that they take.
ghost use Rattle.std.specs.Prelude.{◌≡◌, IfOk};
ghost use Rattle.clap.specs.Simple.{app_of, with_rule};
ghost use Rattle.at_words.specs.Commands.{bare_app, flag_rule, long_flag_rule, value_rule, long_rule, operands_rule};

use clap::{Arg, ArgAction, Command};
use std::alloc::{AllocError, Global};

/// A command without arguments, which takes no flag for help.
pub fn bare_command<'a>(alloc: Global, name: &'a str) -> Command<'a>
    ensures { app_of result ≡ bare_app name.entry.now }
{
    Command::new(alloc, name).disable_help_flag(true)
}

/// The command with a flag of one letter more.
pub fn with_flag<'a>(
    alloc: Global,
    command: Command<'a>,
    id: &'a str,
    letter: char,
) -> Result<Command<'a>, AllocError>
    ensures { IfOk result (λ more.
        app_of more ≡ with_rule (app_of command.entry) (flag_rule id.entry.now letter)) }
{
    let flag = Arg::new(alloc, id).short(letter).action(ArgAction::SetTrue);
    command.arg(flag)
}

/// The command with an option of one letter more.
pub fn with_value<'a>(
    alloc: Global,
    command: Command<'a>,
    id: &'a str,
    letter: char,
) -> Result<Command<'a>, AllocError>
    ensures { IfOk result (λ more.
        app_of more ≡ with_rule (app_of command.entry) (value_rule id.entry.now letter)) }
{
    let option = Arg::new(alloc, id).short(letter).action(ArgAction::Set);
    command.arg(option)
}

/// The command with an option of a long name more.
pub fn with_long<'a>(
    alloc: Global,
    command: Command<'a>,
    id: &'a str,
) -> Result<Command<'a>, AllocError>
    ensures { IfOk result (λ more.
        app_of more ≡ with_rule (app_of command.entry) (long_rule id.entry.now)) }
{
    let option = Arg::new(alloc, id).long(id).action(ArgAction::Set);
    command.arg(option)
}

/// The command with a flag of a long name more.
pub fn with_long_flag<'a>(
    alloc: Global,
    command: Command<'a>,
    id: &'a str,
) -> Result<Command<'a>, AllocError>
    ensures { IfOk result (λ more.
        app_of more ≡ with_rule (app_of command.entry) (long_flag_rule id.entry.now)) }
{
    let flag = Arg::new(alloc, id).long(id).action(ArgAction::SetTrue);
    command.arg(flag)
}

/// The command with any number of operands.
pub fn with_operands<'a>(alloc: Global, command: Command<'a>) -> Result<Command<'a>, AllocError>
    ensures { IfOk result (λ more. app_of more ≡ with_rule (app_of command.entry) operands_rule) }
{
    let operands = Arg::new(alloc, "operands").action(ArgAction::Append);
    command.arg(operands)
}
