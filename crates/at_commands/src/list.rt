//! Listings: `atq` and `at -l`.
ghost use Rattle.std.specs.Prelude.{◌≡◌, ◌≢◌, IfErr, IfOk, IsTrue, true};
ghost use Rattle.at_words.specs.declared.tool_request.ToolRequest.TheVariants as request;
ghost use Rattle.civil_minute.specs.Zone.{IsReadable};
ghost use Rattle.host_calls.specs.Causes.{Rose};
ghost use Rattle.host_calls.specs.Session.{CallsInside, IsInside, IsOutside};
ghost use Rattle.host_calls.specs.World.{TimePasses};
ghost use Rattle.listing_text.specs.declared.cause.Cause.TheVariants as cause;
ghost use Rattle.listing_text.specs.Listing.{IsListing};
ghost use Rattle.spool_model.specs.Users.{IsUserName};
ghost use Rattle.tool_output.specs.Causes.{error_of};
ghost use Rattle.command_rules.specs.Requested.{passes_of};
ghost use Rattle.tool_output.specs.Sinks.{sink_at};
ghost use Rattle.command_rules.specs.Verdict.{filter_check};
ghost use Rattle.at_commands.specs.inside.RequestOutcome.{EndsPrinting};
ghost use Rattle.spool_session.specs.Sessions.{ComesOfSession, HasRisenIn, StaysQuiet};
ghost use Rattle.at_commands.specs.inside.Session.{IsNoOutput};
ghost use Rattle.at_commands.specs.inside.Sessions.{ListsFor};

use at_words::Filter;
use civil_minute::{Zone, is_unreadable};
use command_rules::{Caller, CommandError};
use host_calls::{Bytes, Host, Sink};
use job_listing::job_listing_text;
use listing_text::{Cause, Refusal};
use spool_model::UserName;
use spool_session::{in_command_session, open_store, refusal_of_jobs};
use spool_store::Store;
use std::alloc::Global;
use tool_output::put_whole;

// Lists the jobs that the filter lets pass.
pub(crate) fn list_jobs<H: Host, O: Sink>(
    alloc: Global,
    which: &Filter,
    caller: &Caller,
    host: &mut H,
    out: &mut O,
) -> Cause
    requires { IsOutside (H.session host.old) }
    ensures quiet { StaysQuiet H.Host host.old host.new }
    ensures faults { HasRisenIn H.Host host.old host.new result }
    ensures no_input_fault { result ≢ Cause.InputFault }
    ensures output_fault { result ≡ Cause.OutputFault
        → Rose (O.outlet out.old).sink_faults (O.outlet out.new).sink_faults }
    ensures made_as { (O.outlet out.new).made_as ≡ (O.outlet out.old).made_as }
    ensures ends { EndsPrinting H.tells H.alone O.tells (request.List which.now) caller.now
        (H.world host.old) (H.world host.new)
        (sink_at (O.content out.old) (O.outlet out.old)) (sink_at (O.content out.new) (O.outlet out.new)) result }
{
    match UserName::of(caller.context.user.as_str().as_bytes()) {
        Some(user) => list_for(alloc, &user, which, caller, host, out),
        None => Cause::Refused(Refusal::BadUser),
    }
}

// Lists the jobs that the filter lets pass, for the user that the caller is.
fn list_for<H: Host, O: Sink>(
    alloc: Global,
    user: &UserName,
    which: &Filter,
    caller: &Caller,
    host: &mut H,
    out: &mut O,
) -> Cause
    requires outside { IsOutside (H.session host.old) }
    requires named { IsUserName caller.now.context.user }
    requires user { caller.now.context.user ≡ user.now }
    ensures quiet { StaysQuiet H.Host host.old host.new }
    ensures faults { HasRisenIn H.Host host.old host.new result }
    ensures no_input_fault { result ≢ Cause.InputFault }
    ensures output_fault { result ≡ Cause.OutputFault
        → Rose (O.outlet out.old).sink_faults (O.outlet out.new).sink_faults }
    ensures made_as { (O.outlet out.new).made_as ≡ (O.outlet out.old).made_as }
    ensures ends { EndsPrinting H.tells H.alone O.tells (request.List which.now) caller.now
        (H.world host.old) (H.world host.new)
        (sink_at (O.content out.old) (O.outlet out.old)) (sink_at (O.content out.new) (O.outlet out.new)) result }
{
    if is_unreadable(&caller.zone) {
        return Cause::Refused(Refusal::BadZone);
    }
    // The session is left before the text is put, so that a slow reader does not hold the lock.
    let zone = &caller.zone;
    match in_command_session(
        alloc,
        host,
        &mut |host| list_inside(alloc, user, which, zone, host),
    ) {
        Ok(text) => put_whole(alloc, host, text.as_slice(), out),
        Err(stopped) => stopped.cause,
    }
}

// The lines of the jobs.
fn list_inside<H: Host>(
    alloc: Global,
    user: &UserName,
    which: &Filter,
    zone: &Zone,
    host: &mut H,
) -> Result<Bytes, CommandError>
    requires inside { IsInside (H.session host.old) }
    requires zone { IsReadable zone.now }
    ensures inside { CallsInside (error_of cause.FileFault) (H.session host.old) (H.session host.new) result }
    ensures comes { IfErr result ComesOfSession }
    ensures no_output { IfErr result IsNoOutput }
    ensures goes_on { IsTrue H.tells → TimePasses (H.world host.old) (H.world host.new) }
    ensures lists { ListsFor H.tells true (request.List which.now) user.now zone.now
        (H.world host.old) (H.world host.new) result }
{
    let store = open_store(alloc, host, user)?;
    match refusal_of_filter(&store, user, which) {
        Some(refusal) => Err(CommandError::refused(refusal)),
        None => listing_text_of(alloc, &store, user, which, zone),
    }
}

// The lines of the jobs that the filter lets pass.
fn listing_text_of(
    alloc: Global,
    store: &Store,
    user: &UserName,
    which: &Filter,
    zone: &Zone,
) -> Result<Bytes, CommandError>
    requires zone { IsReadable zone.now }
    ensures is_listing { IfOk result (IsListing zone.now store.now.table user.now (passes_of which.now)) }
    ensures memory { IfErr result (λ stopped. stopped ≡ error_of cause.Memory) }
{
    Ok(job_listing_text(alloc, store, user, which, zone)?)
}

// The first refusal of the jobs that are requested by their numbers.
fn refusal_of_filter(store: &Store, user: &UserName, which: &Filter) -> Option<Refusal>
    ensures { result ≡ filter_check user.now store.now.table which.now }
{
    match which {
        Filter::All => None,
        Filter::Queue(_) => None,
        Filter::Numbers(numbers) => refusal_of_jobs(store, user, false, numbers.as_slice()),
    }
}
