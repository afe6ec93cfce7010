//! The mark of a minute is placed, and then its jobs are submitted.
ghost use Rattle.std.specs.Prelude.{◌≡◌, ◌+◌, ◌≤◌, ◌<◌, All, IsTrue, OnOk, length, vec_capacity, vec_len};
ghost use Rattle.host_calls.specs.ClockRange.{IsClockMinute};
ghost use Rattle.host_calls.specs.Session.{CallsInside, IsInside};
ghost use Rattle.job_script.specs.Check.{IsUsableContext};
ghost use Rattle.job_script.specs.declared.writer.TheConstants.{MAX_COMMANDS};
ghost use Rattle.spool_model.specs.JobTable.{JobTable};
ghost use Rattle.step_runs.specs.Current.{IsCurrent};
ghost use Rattle.whole_file.specs.Others.{ChangesFiles};
ghost use Rattle.whole_file.specs.Placement.{IsPlaced, IsPlacing};
ghost use Rattle.whole_file.specs.TempFiles.{IsDurableAt};
ghost use Rattle.cron_session.specs.Mark.{cron_mark_text};
ghost use Rattle.cron_session.specs.MarkNames.{mark_file, mark_temp};
ghost use Rattle.cron_session.specs.Steps.{HasRoomFor};
ghost use Rattle.cron_session.specs.inside.Due.{cron_jobs};
ghost use Rattle.cron_session.specs.inside.MarkThenSubmit.{MarksAndSubmits};

use crate::submit::submit_all;
use crate::{cron_mark_text, mark_name, mark_temporary_name};
use host_calls::{Bytes, Host, HostFault};
use job_script::Context;
use spool_store::{Store, StoreFault};
use std::alloc::Global;
use whole_file::replace;

// Marks the minute, and then submits a job of each of the commands, in order.
pub(crate) fn mark_and_submit<H: Host>(
    alloc: Global,
    host: &mut H,
    store: Store,
    context: &Context,
    minute: u32,
    due: &[Bytes],
    numbers: &mut Vec<u32>,
) -> Result<(), StoreFault>
    requires inside { IsInside (H.session host.old) }
    requires fit { IsUsableContext context.now }
    requires umask { context.now.umask < 512 }
    requires minute { IsClockMinute minute }
    requires short { All (λ commands. length commands ≤ MAX_COMMANDS) due.now }
    requires room { HasRoomFor store.table (length due.now) }
    requires numbers { vec_len numbers.old + length due.now ≤ vec_capacity numbers.old }
    requires current { IsTrue H.tells → (table : JobTable) × IsCurrent store (H.world host.old).now.directory table }
    requires durable { IsTrue H.tells → IsDurableAt mark_temp (H.world host.old).now.directory }
    ensures { MarksAndSubmits H.tells (H.session host.old) (H.session host.new) (H.world host.old) (H.world host.new)
        store minute (cron_jobs context.now minute due.now) numbers.old.items numbers.new.items result }
{
    // The mark is durable before the first job is accepted: a crash in between loses the rest of the minute, and never
    // has it twice.
    place_mark(alloc, host, minute)?;
    submit_all(alloc, host, store, context, minute, due, numbers)
}

// Gives the file of the mark that of the minute.
fn place_mark<H: Host>(alloc: Global, host: &mut H, minute: u32) -> Result<(), HostFault>
    requires inside { IsInside (H.session host.old) }
    requires durable { IsTrue H.tells → IsDurableAt mark_temp (H.world host.old).now.directory }
    ensures inside { CallsInside HostFault.Failed (H.session host.old) (H.session host.new) result }
    ensures files { IsTrue H.tells
        → ChangesFiles (IsPlacing mark_temp mark_file (cron_mark_text minute) (H.world host.old).now.directory)
        (H.world host.old) (H.world host.new) }
    ensures placed { IsTrue H.tells
        → OnOk result (IsPlaced mark_temp mark_file (cron_mark_text minute)
        (H.world host.old).now.directory (H.world host.new).now.directory) }
{
    replace(
        alloc,
        host,
        &mark_temporary_name(),
        &mark_name(),
        &cron_mark_text(minute),
    )
}
