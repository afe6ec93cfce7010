//! The checks of a submission before the spool is entered, in their order.
ghost use Rattle.std.specs.Prelude.{◌≡◌, ◌<◌, option_copied};
ghost use Rattle.host_calls.specs.Causes.{HasCause};
ghost use Rattle.host_calls.specs.Inputs.{AreReadAtMostOnce};
ghost use Rattle.listing_text.specs.declared.cause.Cause.TheVariants as cause;
ghost use Rattle.tool_output.specs.Causes.{error_of};
ghost use Rattle.submission_checks.specs.EarlyChecks.{Prepares};

use crate::Submission;
use crate::commands::read_commands;
use crate::times::minute_meant;
use at_words::When;
use civil_minute::{Zone, is_unreadable};
use command_rules::{Caller, CommandError};
use host_calls::{Inputs, Readings, is_clock_second};
use job_script::{check, write};
use listing_text::Refusal;
use std::alloc::Global;

/// Checks what the caller has, the clock, the zone, the time and the commands, in this order, and makes the text of the
/// job. The clock and the commands are read once each, and not at all where an earlier check refuses.
pub fn prepare<R: Readings, I: Inputs>(
    alloc: Global,
    caller: &Caller,
    mail: bool,
    file: Option<&str>,
    when: &When,
    readings: &mut R,
    inputs: &mut I,
) -> Result<Submission, CommandError>
    requires umask { caller.now.context.umask < 512 }
    ensures readers { R.readers readings.new ≡ R.readers readings.old }
    ensures contents { I.contents inputs.new ≡ I.contents inputs.old }
    ensures at_most_once { AreReadAtMostOnce (I.sources inputs.old) (I.sources inputs.new) }
    ensures cause { HasCause (error_of cause.InputFault)
        (I.sources inputs.old).input_faults (I.sources inputs.new).input_faults result }
    ensures prepares { Prepares R.tells I.tells caller.now mail (option_copied file.entry) when.now
        (R.answers readings.old) (R.answers readings.new) (I.contents inputs.old) result }
{
    check(&caller.context)?;
    let now = readings.now();
    if !is_clock_second(now) {
        return Err(CommandError::refused(Refusal::BadClock));
    }
    if is_unreadable(&caller.zone) {
        return Err(CommandError::refused(Refusal::BadZone));
    }
    let minute = minute_meant(alloc, when, now, &caller.zone)?;
    let commands = read_commands(alloc, file, inputs)?;
    let script = write(alloc, &caller.context, mail, commands.as_slice())?;
    Ok(Submission { minute, script })
}
