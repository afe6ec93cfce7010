//! The scripts of jobs: `at -c`.
ghost use Rattle.std.specs.Prelude.{◌≡◌, ◌≢◌, IfErr, IsErrOf, IsTrue, true};
ghost use Rattle.at_words.specs.declared.tool_request.ToolRequest.TheVariants as request;
ghost use Rattle.host_calls.specs.Causes.{Rose};
ghost use Rattle.host_calls.specs.Session.{CallsInside, IsInside, IsOutside};
ghost use Rattle.host_calls.specs.World.{TimePasses};
ghost use Rattle.spool_session.specs.Sessions.{ComesOfSession, HasRisenIn, StaysQuiet};
ghost use Rattle.listing_text.specs.declared.cause.Cause.TheVariants as cause;
ghost use Rattle.tool_output.specs.Causes.{error_of};
ghost use Rattle.tool_output.specs.Sinks.{sink_at};
ghost use Rattle.at_commands.specs.inside.RequestOutcome.{EndsPrinting};
ghost use Rattle.at_commands.specs.inside.Sessions.{ShowsFor};

use crate::cause::cause_of_command;
use at_words::Numbers;
use command_rules::{Caller, CommandError};
use host_calls::{Host, Sink};
use job_listing::put_scripts;
use listing_text::{Cause, Refusal};
use spool_model::UserName;
use spool_session::{in_command_session, open_store, refusal_of_jobs};
use std::alloc::Global;

// Puts the scripts of the jobs of the numbers.
pub(crate) fn show<H: Host, O: Sink>(
    alloc: Global,
    numbers: &Numbers,
    caller: &Caller,
    host: &mut H,
    out: &mut O,
) -> Cause
    requires { IsOutside (H.session host.old) }
    ensures quiet { StaysQuiet H.Host host.old host.new }
    ensures faults { HasRisenIn H.Host host.old host.new result }
    ensures no_input_fault { result ≢ Cause.InputFault }
    ensures output_fault { result ≡ Cause.OutputFault
        → Rose (O.outlet out.old).sink_faults (O.outlet out.new).sink_faults }
    ensures made_as { (O.outlet out.new).made_as ≡ (O.outlet out.old).made_as }
    ensures ends { EndsPrinting H.tells H.alone O.tells (request.Show numbers.now) caller.now
        (H.world host.old) (H.world host.new)
        (sink_at (O.content out.old) (O.outlet out.old)) (sink_at (O.content out.new) (O.outlet out.new)) result }
{
    let numbers = numbers.as_slice();
    // The session lasts as long as the scripts are read.
    match UserName::of(caller.context.user.as_str().as_bytes()) {
        Some(user) => cause_of_command(in_command_session(
            alloc,
            host,
            &mut |host| show_inside(alloc, &user, numbers, host, out),
        )),
        None => Cause::Refused(Refusal::BadUser),
    }
}

// Puts the scripts.
fn show_inside<H: Host, O: Sink>(
    alloc: Global,
    user: &UserName,
    numbers: &[u32],
    host: &mut H,
    out: &mut O,
) -> Result<(), CommandError>
    requires { IsInside (H.session host.old) }
    ensures inside { CallsInside (error_of cause.FileFault) (H.session host.old) (H.session host.new) result }
    ensures comes { IfErr result ComesOfSession }
    ensures output_fault { IsErrOf result (error_of cause.OutputFault)
        → Rose (O.outlet out.old).sink_faults (O.outlet out.new).sink_faults }
    ensures made_as { (O.outlet out.new).made_as ≡ (O.outlet out.old).made_as }
    ensures goes_on { IsTrue H.tells → TimePasses (H.world host.old) (H.world host.new) }
    ensures shows { ShowsFor H.tells true O.tells (request.Show numbers.now) user.now
        (H.world host.old) (H.world host.new)
        (sink_at (O.content out.old) (O.outlet out.old)) (sink_at (O.content out.new) (O.outlet out.new)) result }
{
    let store = open_store(alloc, host, user)?;
    match refusal_of_jobs(&store, user, false, numbers) {
        Some(refusal) => Err(CommandError::refused(refusal)),
        None => put_scripts(alloc, host, &store, numbers, out),
    }
}
