//! Submissions: `at` and `batch`.
ghost use Rattle.std.specs.Prelude.{◌≡◌, ◌≢◌, ◌<◌, IfErr, IsSome, IsTrue, option_copied, true};
ghost use Rattle.std.specs.Char.{is_ascii_alphabetic};
ghost use Rattle.at_words.specs.declared.tool_request.ToolRequest.TheVariants as request;
ghost use Rattle.civil_minute.specs.Zone.{IsReadable};
ghost use Rattle.host_calls.specs.ClockRange.{IsClockMinute};
ghost use Rattle.host_calls.specs.Causes.{Rose};
ghost use Rattle.host_calls.specs.Inputs.{AreReadAtMostOnce};
ghost use Rattle.host_calls.specs.Session.{CallsInside, IsInside, IsOutside};
ghost use Rattle.host_calls.specs.World.{TimePasses};
ghost use Rattle.job_script.specs.HeaderIn.{header_in};
ghost use Rattle.spool_model.specs.Users.{IsUserName};
ghost use Rattle.listing_text.specs.declared.cause.Cause.TheVariants as cause;
ghost use Rattle.tool_output.specs.declared.caller.Caller.{Caller as From};
ghost use Rattle.command_rules.specs.Requested.{IsAcceptedLine};
ghost use Rattle.tool_output.specs.Sinks.{sink_at};
ghost use Rattle.at_commands.specs.inside.RequestOutcome.{SubmissionEnds, held_by, tells_of};
ghost use Rattle.at_commands.specs.inside.AcceptedLine.{Accepts};
ghost use Rattle.tool_output.specs.Causes.{error_of};
ghost use Rattle.spool_session.specs.Sessions.{ComesOfSession, HasRisenIn, StaysQuiet};
ghost use Rattle.at_commands.specs.inside.Session.{IsNoOutput};
ghost use Rattle.at_commands.specs.inside.StoredJob.{AnswersJob, StoresJob};

use crate::lines::say_accepted;
use at_words::When;
use civil_minute::Zone;
use command_rules::{Caller, CommandError, cause_of_put};
use host_calls::{Host, Inputs, Readings, Sink, Text};
use listing_text::Cause;
use spool_model::UserName;
use spool_session::{in_command_session, open_store};
use std::alloc::Global;
use submission_checks::{Submission, prepare};

// Submits a job, and says so.
pub(crate) fn submit_job<H: Host, R: Readings, I: Inputs, E: Sink>(
    alloc: Global,
    queue: u8,
    mail: bool,
    file: &Option<Text>,
    when: &When,
    caller: &Caller,
    host: &mut H,
    readings: &mut R,
    inputs: &mut I,
    err: &mut E,
) -> Cause
    requires outside { IsOutside (H.session host.old) }
    requires umask { caller.now.context.umask < 512 }
    requires queue { IsTrue (is_ascii_alphabetic queue) }
    ensures quiet { StaysQuiet H.Host host.old host.new }
    ensures faults { HasRisenIn H.Host host.old host.new result }
    ensures input_fault { result ≡ Cause.InputFault
        → Rose (I.sources inputs.old).input_faults (I.sources inputs.new).input_faults }
    ensures output_fault { result ≡ Cause.OutputFault
        → Rose (E.outlet err.old).sink_faults (E.outlet err.new).sink_faults }
    ensures readers { R.readers readings.new ≡ R.readers readings.old }
    ensures contents { I.contents inputs.new ≡ I.contents inputs.old }
    ensures input_read { AreReadAtMostOnce (I.sources inputs.old) (I.sources inputs.new) }
    ensures errors_made { (E.outlet err.new).made_as ≡ (E.outlet err.old).made_as }
    ensures submits { SubmissionEnds (tells_of H.tells H.alone R.tells I.tells E.tells)
        (request.Submit queue mail file.now when.now) caller.now
        (held_by (H.world host.old) (R.answers readings.old) (I.contents inputs.old)
        (sink_at (E.content err.old) (E.outlet err.old)))
        (held_by (H.world host.new) (R.answers readings.new) (I.contents inputs.new)
        (sink_at (E.content err.new) (E.outlet err.new))) result }
{
    match prepare(alloc, caller, mail, path_of(file), when, readings, inputs) {
        Ok(submission) => store_and_say(alloc, caller, queue, &submission, host, err),
        Err(stopped) => stopped.cause,
    }
}

fn path_of(file: &Option<Text>) -> Option<&str>
    ensures { option_copied result ≡ file.now }
{
    match file {
        Some(path) => Some(path.as_str()),
        None => None,
    }
}

// Stores the job of a submission in a session of its own, and says so.
fn store_and_say<H: Host, E: Sink>(
    alloc: Global,
    caller: &Caller,
    queue: u8,
    submission: &Submission,
    host: &mut H,
    err: &mut E,
) -> Cause
    requires outside { IsOutside (H.session host.old) }
    requires queue { IsTrue (is_ascii_alphabetic queue) }
    requires user { IsUserName caller.now.context.user }
    requires zone { IsReadable caller.now.zone }
    requires header { IsSome (header_in submission.now.script) }
    ensures quiet { StaysQuiet H.Host host.old host.new }
    ensures faults { HasRisenIn H.Host host.old host.new result }
    ensures no_input_fault { result ≢ Cause.InputFault }
    ensures output_fault { result ≡ Cause.OutputFault
        → Rose (E.outlet err.old).sink_faults (E.outlet err.new).sink_faults }
    ensures errors_made { (E.outlet err.new).made_as ≡ (E.outlet err.old).made_as }
    ensures answers { AnswersJob H.tells H.alone E.tells caller.now queue submission.now.minute submission.now.script
        (H.world host.old) (H.world host.new)
        (sink_at (E.content err.old) (E.outlet err.old)) (sink_at (E.content err.new) (E.outlet err.new)) result }
{
    let user = UserName::of(caller.context.user.as_str().as_bytes()).unwrap();
    let minute = submission.minute;
    let script = submission.script.as_slice();
    match in_command_session(
        alloc,
        host,
        &mut |host| store_inside(alloc, &user, queue, minute, script, host),
    ) {
        Ok(number) => accept(alloc, number, minute, &caller.zone, err),
        Err(stopped) => stopped.cause,
    }
}

// Says that a job was accepted.
fn accept<E: Sink>(alloc: Global, number: u32, minute: u32, zone: &Zone, err: &mut E) -> Cause
    requires minute { IsClockMinute minute }
    requires zone { IsReadable zone.now }
    ensures made_as { (E.outlet err.new).made_as ≡ (E.outlet err.old).made_as }
    ensures output_fault { result ≡ Cause.OutputFault
        → Rose (E.outlet err.old).sink_faults (E.outlet err.new).sink_faults }
    ensures accepts { Accepts E.tells (IsAcceptedLine number minute zone.now)
        (sink_at (E.content err.old) (E.outlet err.old)) (sink_at (E.content err.new) (E.outlet err.new)) result }
{
    cause_of_put(say_accepted(alloc, number, minute, zone, err))
}

// Stores a job. Answers its number.
fn store_inside<H: Host>(
    alloc: Global,
    user: &UserName,
    queue: u8,
    minute: u32,
    script: &[u8],
    host: &mut H,
) -> Result<u32, CommandError>
    requires inside { IsInside (H.session host.old) }
    requires queue { IsTrue (is_ascii_alphabetic queue) }
    requires minute { IsClockMinute minute }
    requires header { IsSome (header_in script.now) }
    ensures inside { CallsInside (error_of cause.FileFault) (H.session host.old) (H.session host.new) result }
    ensures comes { IfErr result ComesOfSession }
    ensures no_output { IfErr result IsNoOutput }
    ensures goes_on { IsTrue H.tells → TimePasses (H.world host.old) (H.world host.new) }
    ensures stores { (caller : From) → caller.context.user ≡ user.now
        → StoresJob H.tells true caller queue minute script.now (H.world host.old) (H.world host.new) result }
{
    let store = open_store(alloc, host, user)?;
    let (_, number) = store.submit(alloc, host, queue, minute, script)?;
    Ok(number)
}
