//! The session: the recovery, the records with what is new, and the file that has them.
ghost use Rattle.std.specs.Prelude.{◌≡◌, ◌≢◌, All, IfErr, IfOk, IsTrue};
ghost use Rattle.std.specs.FinMap as map;
ghost use Rattle.at_account.specs.Lines.{SpellsRecord};
ghost use Rattle.tool_output.specs.Causes.{error_of};
ghost use Rattle.tool_output.specs.Sinks.{sink_at};
ghost use Rattle.host_calls.specs.Causes.{Rose};
ghost use Rattle.host_calls.specs.Session.{CallsInside, IsInside, IsOutside};
ghost use Rattle.host_calls.specs.World.{TimePasses, reading};
ghost use Rattle.listing_text.specs.declared.cause.Cause.TheVariants as cause;
ghost use Rattle.record_lines.specs.Lines.{CanBeSpelled};
ghost use Rattle.spool_session.specs.Sessions.{HasRisenIn, StaysQuiet};
ghost use Rattle.whole_file.specs.Others.{ChangesFiles};
ghost use Rattle.at_account.specs.AccountOutcome.{IsAccounting, MayEndAccount};
ghost use Rattle.at_account.specs.Names.{account_file};
ghost use Rattle.at_account.specs.inside.Inside.{Accounts, Counts, EndsInside, IsAccountingCause};

use crate::file::{read_account, write_account};
use crate::lines::shown_counts;
use crate::{Account, AccountFault};
use host_calls::{Bytes, Host, Sink};
use listing_text::{Cause, Refusal};
use spool_model::LAST_NUMBER;
use spool_session::in_command_session;
use spool_store::Store;
use std::alloc::Global;
use tool_output::{CommandError, put_whole};

// Counts what became of the jobs, and puts the lines where they are to be shown.
pub(crate) fn account<H: Host, O: Sink>(
    alloc: Global,
    show: bool,
    host: &mut H,
    out: &mut O,
) -> Cause
    requires { IsOutside (H.session host.old) }
    ensures quiet { StaysQuiet H.Host host.old host.new }
    ensures faults { HasRisenIn H.Host host.old host.new result }
    ensures may_end { MayEndAccount result }
    ensures output_fault { result ≡ Cause.OutputFault
        → Rose (O.outlet out.old).sink_faults (O.outlet out.new).sink_faults }
    ensures made_as { (O.outlet out.new).made_as ≡ (O.outlet out.old).made_as }
    ensures accounts { Accounts H.tells H.alone O.tells show (H.world host.old) (H.world host.new)
        (sink_at (O.content out.old) (O.outlet out.old)) (sink_at (O.content out.new) (O.outlet out.new)) result }
{
    // The session is left before the text is put, so that a slow reader does not hold the lock.
    match in_command_session(alloc, host, &mut |host| account_inside(alloc, show, host)) {
        Ok(text) => put_whole(alloc, host, text.as_slice(), out),
        Err(stopped) => stopped.cause,
    }
}

// Counts what became of the jobs. What is to be shown is made before the file is replaced, so that an out-of-memory
// error for it changes nothing.
fn account_inside<H: Host>(alloc: Global, show: bool, host: &mut H) -> Result<Bytes, CommandError>
    requires { IsInside (H.session host.old) }
    ensures inside { CallsInside (error_of cause.FileFault) (H.session host.old) (H.session host.new) result }
    ensures comes { IfErr result (λ stopped. IsAccountingCause stopped.cause) }
    ensures goes_on { IsTrue H.tells → TimePasses (H.world host.old) (H.world host.new) }
    ensures images { IsTrue H.tells
        → ChangesFiles (IsAccounting (H.world host.old).now.directory) (H.world host.old) (H.world host.new) }
    ensures ends { IsTrue H.tells → EndsInside show (H.world host.old) (H.world host.new) result }
{
    let store = Store::recover(alloc, host)?;
    let account = updated_account(alloc, host, &store)?;
    let text = shown_counts(alloc, show, &account)?;
    write_account(alloc, host, &account)?;
    Ok(text)
}

// The records of the file with what is new of the store's jobs.
fn updated_account<H: Host>(
    alloc: Global,
    host: &mut H,
    store: &Store,
) -> Result<Account, CommandError>
    requires { IsInside (H.session host.old) }
    ensures inside { CallsInside (error_of cause.FileFault) (H.session host.old) (H.session host.new) result }
    ensures comes { IfErr result (λ stopped. IsAccountingCause stopped.cause) }
    ensures spelled { IfOk result (All (CanBeSpelled SpellsRecord)) }
    ensures looks { IsTrue H.tells → H.world host.new ≡ H.world host.old }
    ensures counts { IsTrue H.tells
        → Counts store.now.table (map.get (reading (H.world host.old)) account_file) result }
{
    // No number of a job passes what a line holds.
    prove!(store.last() <= LAST_NUMBER);
    let mut account = read_account(alloc, host)?;
    match account.observe(alloc, store.rows(), store.decided()) {
        Ok(()) => Ok(account),
        Err(AccountFault::Full) => Err(CommandError::refused(Refusal::AccountsFull)),
        Err(AccountFault::Memory) => Err(CommandError {
            cause: Cause::Memory,
        }),
    }
}
