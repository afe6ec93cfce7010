//! Removals: `atrm` and `at -r`.
ghost use Rattle.std.specs.Prelude.{◌≡◌, ◌≢◌, IfErr, IsTrue, true};
ghost use Rattle.at_words.specs.declared.tool_request.ToolRequest.TheVariants as request;
ghost use Rattle.at_words.specs.Numbers.{are_distinct};
ghost use Rattle.host_calls.specs.Session.{CallsInside, IsInside, IsOutside};
ghost use Rattle.host_calls.specs.World.{TimePasses};
ghost use Rattle.listing_text.specs.declared.cause.Cause.TheVariants as cause;
ghost use Rattle.tool_output.specs.Causes.{error_of};
ghost use Rattle.spool_session.specs.Sessions.{ComesOfSession, HasRisenIn, StaysQuiet};
ghost use Rattle.at_commands.specs.inside.RequestOutcome.{EndsRemoving};
ghost use Rattle.at_commands.specs.inside.Session.{IsNoOutput};
ghost use Rattle.at_commands.specs.inside.Sessions.{CarriesFor};

use crate::cause::cause_of_command;
use crate::remove_jobs;
use at_words::Numbers;
use command_rules::{Caller, CommandError};
use host_calls::Host;
use listing_text::{Cause, Refusal};
use spool_model::UserName;
use spool_session::{in_command_session, open_store, refusal_of_jobs};
use std::alloc::Global;

// Removes the jobs of the numbers.
pub(crate) fn remove<H: Host>(
    alloc: Global,
    numbers: &Numbers,
    caller: &Caller,
    host: &mut H,
) -> Cause
    requires { IsOutside (H.session host.old) }
    ensures quiet { StaysQuiet H.Host host.old host.new }
    ensures faults { HasRisenIn H.Host host.old host.new result }
    ensures no_input_fault { result ≢ Cause.InputFault }
    ensures no_output { result ≢ Cause.OutputFault }
    ensures ends { EndsRemoving H.tells H.alone (request.Remove numbers.now) caller.now
        (H.world host.old) (H.world host.new) result }
{
    let numbers = numbers.as_slice();
    match UserName::of(caller.context.user.as_str().as_bytes()) {
        Some(user) => cause_of_command(in_command_session(
            alloc,
            host,
            &mut |host| remove_inside(alloc, &user, numbers, host),
        )),
        None => Cause::Refused(Refusal::BadUser),
    }
}

// Removes the jobs of the numbers.
fn remove_inside<H: Host>(
    alloc: Global,
    user: &UserName,
    numbers: &[u32],
    host: &mut H,
) -> Result<(), CommandError>
    requires inside { IsInside (H.session host.old) }
    requires distinct { IsTrue (are_distinct numbers.now) }
    ensures inside { CallsInside (error_of cause.FileFault) (H.session host.old) (H.session host.new) result }
    ensures comes { IfErr result ComesOfSession }
    ensures no_output { IfErr result IsNoOutput }
    ensures goes_on { IsTrue H.tells → TimePasses (H.world host.old) (H.world host.new) }
    ensures carries { CarriesFor H.tells true (request.Remove numbers.now) user.now
        (H.world host.old) (H.world host.new) result }
{
    let store = open_store(alloc, host, user)?;
    match refusal_of_jobs(&store, user, true, numbers) {
        Some(refusal) => Err(CommandError::refused(refusal)),
        None => remove_jobs(alloc, host, store, numbers),
    }
}
