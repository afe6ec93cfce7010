//! The commands of a submission.
ghost use Rattle.std.specs.Prelude.{◌≡◌, IfErr, IfOk, IsTrue, option_copied, option_map};
ghost use Rattle.host_calls.specs.Causes.{HasCause};
ghost use Rattle.host_calls.specs.Inputs.{AreReadOnce};
ghost use Rattle.listing_text.specs.declared.cause.Cause.TheVariants as cause;
ghost use Rattle.tool_output.specs.Causes.{error_of};
ghost use Rattle.command_rules.specs.Found.{AreReadCommands};
ghost use Rattle.submission_checks.specs.ReadCauses.{ComesOfReading};

use command_rules::CommandError;
use host_calls::{Bytes, Inputs};
use job_script::MAX_COMMANDS;
use std::alloc::Global;

// The first bytes of the file, or of standard input where none is named: one more at most than a job may have.
pub(crate) fn read_commands<I: Inputs>(
    alloc: Global,
    file: Option<&str>,
    inputs: &mut I,
) -> Result<Bytes, CommandError>
    ensures contents { I.contents inputs.new ≡ I.contents inputs.old }
    ensures once { AreReadOnce (I.sources inputs.old) (I.sources inputs.new) }
    ensures cause { HasCause (error_of cause.InputFault)
        (I.sources inputs.old).input_faults (I.sources inputs.new).input_faults result }
    ensures comes { IfErr result ComesOfReading }
    ensures read { IsTrue I.tells → IfOk result (AreReadCommands (option_copied file.entry) (I.contents inputs.old)) }
{
    match file {
        Some(path) => Ok(inputs.file(alloc, path, MAX_COMMANDS + 1)?),
        None => Ok(inputs.standard(alloc, MAX_COMMANDS + 1)?),
    }
}
