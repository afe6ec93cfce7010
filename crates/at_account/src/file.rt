//! The file of accounts, read and replaced.
ghost use Rattle.std.specs.Prelude.{◌≡◌, Some, All, IfErr, IfOk, IsTrue, OnOk};
ghost use Rattle.std.specs.FinMap as map;
ghost use Rattle.at_account.specs.Lines.{SpellsRecord};
ghost use Rattle.tool_output.specs.Causes.{error_of};
ghost use Rattle.host_calls.specs.Session.{CallsInside, IsInside};
ghost use Rattle.host_calls.specs.World.{reading};
ghost use Rattle.listing_text.specs.declared.cause.Cause.TheVariants as cause;
ghost use Rattle.record_lines.specs.Lines.{CanBeSpelled};
ghost use Rattle.whole_file.specs.Others.{ChangesFiles};
ghost use Rattle.whole_file.specs.Placement.{IsPlaced, IsPlacing};
ghost use Rattle.whole_file.specs.TempFiles.{IsDurableAt};
ghost use Rattle.at_account.specs.Names.{account_file, account_temp};
ghost use Rattle.at_account.specs.inside.AccountFile.{IsHostCause, IsReadingCause, IsWriting, AreRecordsWritten, ReadsAccount};

use crate::{Account, account_name, account_temporary_name};
use host_calls::{Damage, Host, HostFault};
use listing_text::Cause;
use record_lines::{LinesFault, lines_text};
use std::alloc::Global;
use tool_output::CommandError;
use whole_file::{content, replace};

// The account of the file; one without records where there is no file.
pub(crate) fn read_account<H: Host>(alloc: Global, host: &mut H) -> Result<Account, CommandError>
    requires { IsInside (H.session host.old) }
    ensures inside { CallsInside (error_of cause.FileFault) (H.session host.old) (H.session host.new) result }
    ensures comes { IfErr result (λ stopped. IsReadingCause stopped.cause) }
    ensures spelled { IfOk result (All (CanBeSpelled SpellsRecord)) }
    ensures looks { IsTrue H.tells → H.world host.new ≡ H.world host.old }
    ensures reads { IsTrue H.tells → ReadsAccount (map.get (reading (H.world host.old)) account_file) result }
{
    match content(alloc, host, &account_name())? {
        Some(bytes) => account_of(alloc, bytes.as_slice()),
        None => Ok(Account::new(alloc)),
    }
}

// The account of these bytes.
fn account_of(alloc: Global, bytes: &[u8]) -> Result<Account, CommandError>
    ensures comes { IfErr result (λ stopped. IsReadingCause stopped.cause) }
    ensures no_fault { IfErr result (λ stopped. stopped.cause ≡ cause.FileFault → ⊥) }
    ensures spelled { IfOk result (All (CanBeSpelled SpellsRecord)) }
    ensures reads { ReadsAccount (Some bytes.now) result }
{
    match Account::read(alloc, bytes) {
        Ok(account) => Ok(account),
        Err(LinesFault::At(offset)) => Err(CommandError {
            cause: Cause::Damaged(Damage::at(account_name(), bytes, offset)),
        }),
        Err(LinesFault::Memory) => Err(CommandError {
            cause: Cause::Memory,
        }),
    }
}

// Gives the file the records of the account.
pub(crate) fn write_account<H: Host>(
    alloc: Global,
    host: &mut H,
    account: &Account,
) -> Result<(), CommandError>
    requires inside { IsInside (H.session host.old) }
    requires spelled { All (CanBeSpelled SpellsRecord) account.now }
    requires durable { IsTrue H.tells → IsDurableAt account_temp (H.world host.old).now.directory }
    ensures inside { CallsInside (error_of cause.FileFault) (H.session host.old) (H.session host.new) result }
    ensures comes { IfErr result (λ stopped. IsHostCause stopped.cause) }
    ensures files { IsTrue H.tells
        → ChangesFiles (IsWriting account.now (H.world host.old).now.directory) (H.world host.old) (H.world host.new) }
    ensures written { IsTrue H.tells
        → OnOk result (AreRecordsWritten account.now (H.world host.old).now.directory (H.world host.new).now.directory) }
{
    let text = lines_text(alloc, account.records())?;
    replace_text(alloc, host, text.as_slice())?;
    Ok(())
}

// Gives the file these bytes.
fn replace_text<H: Host>(alloc: Global, host: &mut H, bytes: &[u8]) -> Result<(), HostFault>
    requires inside { IsInside (H.session host.old) }
    requires durable { IsTrue H.tells → IsDurableAt account_temp (H.world host.old).now.directory }
    ensures inside { CallsInside HostFault.Failed (H.session host.old) (H.session host.new) result }
    ensures files { IsTrue H.tells
        → ChangesFiles (IsPlacing account_temp account_file bytes.now (H.world host.old).now.directory)
        (H.world host.old) (H.world host.new) }
    ensures placed { IsTrue H.tells → OnOk result (IsPlaced account_temp account_file bytes.now
        (H.world host.old).now.directory (H.world host.new).now.directory) }
{
    replace(
        alloc,
        host,
        &account_temporary_name(),
        &account_name(),
        bytes,
    )
}
