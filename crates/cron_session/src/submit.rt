//! The jobs of a minute are submitted, one after another.
ghost use Rattle.std.specs.Prelude.{◌≡◌, ◌+◌, ◌≤◌, ◌<◌, All, IfErr, IfOk, IsTrue, false, length, vec_capacity, vec_len};
ghost use Rattle.host_calls.specs.ClockRange.{IsClockMinute};
ghost use Rattle.host_calls.specs.Session.{IsInside};
ghost use Rattle.job_script.specs.Check.{IsUsableContext};
ghost use Rattle.job_script.specs.JobText.{text_for};
ghost use Rattle.job_script.specs.declared.writer.TheConstants.{MAX_COMMANDS};
ghost use Rattle.spool_model.specs.JobTable.{JobTable};
ghost use Rattle.spool_store.specs.Submission.{HasRoom};
ghost use Rattle.step_runs.specs.Current.{IsCurrent};
ghost use Rattle.cron_session.specs.Steps.{HasRoomFor};
ghost use Rattle.cron_session.specs.inside.Due.{cron_job, cron_jobs};
ghost use Rattle.cron_session.specs.inside.Submissions.{SubmitsAll, SubmitsOne};

use crate::CRON_QUEUE;
use host_calls::{Bytes, Host};
use job_script::{Context, ScriptFault, write};
use spool_store::{Store, StoreFault};
use std::alloc::Global;

// Submits a job of each of the commands at the minute, in order, and writes its number down once it is accepted.
pub(crate) fn submit_all<H: Host>(
    alloc: Global,
    host: &mut H,
    store: Store,
    context: &Context,
    minute: u32,
    due: &[Bytes],
    numbers: &mut Vec<u32>,
) -> Result<(), StoreFault>
    requires inside { IsInside (H.session host.old) }
    requires fit { IsUsableContext context.now }
    requires umask { context.now.umask < 512 }
    requires minute { IsClockMinute minute }
    requires short { All (λ commands. length commands ≤ MAX_COMMANDS) due.now }
    requires room { HasRoomFor store.table (length due.now) }
    requires numbers { vec_len numbers.old + length due.now ≤ vec_capacity numbers.old }
    requires current { IsTrue H.tells → (table : JobTable) × IsCurrent store (H.world host.old).now.directory table }
    ensures { SubmitsAll H.tells (H.session host.old) (H.session host.new) (H.world host.old) (H.world host.new)
        store (cron_jobs context.now minute due.now) numbers.old.items numbers.new.items result }
{
    let mut store = store;
    for commands in due {
        let (next, number) = submit_entry(
            alloc,
            host,
            store,
            context,
            minute,
            commands.as_slice(),
        )?;
        store = next;
        numbers.push_reserved(number);
    }
    Ok(())
}

// Submits the job of the commands at the minute.
fn submit_entry<H: Host>(
    alloc: Global,
    host: &mut H,
    store: Store,
    context: &Context,
    minute: u32,
    commands: &[u8],
) -> Result<(Store, u32), StoreFault>
    requires inside { IsInside (H.session host.old) }
    requires fit { IsUsableContext context.now }
    requires umask { context.now.umask < 512 }
    requires minute { IsClockMinute minute }
    requires short { length commands.now ≤ MAX_COMMANDS }
    requires room { HasRoom store.table }
    requires current { IsTrue H.tells → (table : JobTable) × IsCurrent store (H.world host.old).now.directory table }
    ensures { SubmitsOne H.tells (H.session host.old) (H.session host.new) (H.world host.old) (H.world host.new)
        store (cron_job context.now minute commands.now) result }
{
    let script = script_of(alloc, context, commands)?;
    store.submit(alloc, host, CRON_QUEUE, minute, script.as_slice())
}

// The script of the commands. Nothing but an out-of-memory error is answered.
fn script_of(alloc: Global, context: &Context, commands: &[u8]) -> Result<Bytes, StoreFault>
    requires fit { IsUsableContext context.now }
    requires umask { context.now.umask < 512 }
    requires short { length commands.now ≤ MAX_COMMANDS }
    ensures script { IfOk result (λ script. script ≡ text_for context.now false commands.now) }
    ensures memory { IfErr result (λ fault. fault ≡ StoreFault.Memory) }
{
    match write(alloc, context, false, commands) {
        Ok(script) => Ok(script),
        Err(ScriptFault::Memory) => Err(StoreFault::Memory),
        Err(ScriptFault::BadUser) => unreachable!(),
        Err(ScriptFault::BadDirectory) => unreachable!(),
        Err(ScriptFault::EnvironmentTooLarge) => unreachable!(),
        Err(ScriptFault::TooLong) => unreachable!(),
    }
}
