//! The work of a session within it.
ghost use Rattle.std.specs.Prelude.{◌≡◌, ◌≤◌, ◌<◌, ◌+◌, [], ℤ, All, IsTrue, length, vec_capacity, vec_len};
ghost use Rattle.host_calls.specs.ClockRange.{IsClockMinute, minute_at};
ghost use Rattle.civil_minute.specs.Zone.{IsReadable};
ghost use Rattle.cron_session.specs.MarkNames.{mark_temp};
ghost use Rattle.cron_text.specs.declared.crontab.TheConstants.{MAX_CRONTAB};
ghost use Rattle.host_calls.specs.Session.{IsInside};
ghost use Rattle.job_script.specs.Check.{IsUsableContext};
ghost use Rattle.spool_model.specs.JobTable.{JobTable};
ghost use Rattle.step_runs.specs.Current.{IsCurrent};
ghost use Rattle.whole_file.specs.TempFiles.{IsDurableAt};
ghost use Rattle.cron_session.specs.inside.SessionWork.{SubmitsDue, CronWorks, is_since};

use crate::due::due_at;
use crate::mark::mark_and_submit;
use crate::read_cron_mark;
use crate::room::check_room_and_numbers;
use civil_minute::Zone;
use cron_text::CronEntry;
use host_calls::Host;
use job_script::Context;
use spool_store::{Store, StoreFault};
use std::alloc::Global;

// Recovers the store, and submits what is due at the minute, unless the mark is of it or of a later one.
pub(crate) fn cron_session_body<H: Host>(
    alloc: Global,
    host: &mut H,
    context: &Context,
    zone: &Zone,
    entries: &[CronEntry],
    minute: u32,
    numbers: &mut Vec<u32>,
) -> Result<(), StoreFault>
    requires inside { IsInside (H.session host.old) }
    requires fit { IsUsableContext context.now }
    requires umask { context.now.umask < 512 }
    requires zone { IsReadable zone.now }
    requires minute { IsClockMinute minute }
    requires commands { All (λ entry. length entry.command ≤ MAX_CRONTAB) entries.now }
    requires none { numbers.old.items ≡ [] }
    ensures { (now : ℤ) → minute ≡ minute_at now
        → CronWorks H.tells (record { context = context.now; zone = zone.now; entries = entries.now; now = now })
        (record { session = H.session host.old; world = H.world host.old })
        (record { session = H.session host.new; world = H.world host.new }) numbers.new.items result }
{
    let store = Store::recover(alloc, host)?;
    let marked = read_cron_mark(alloc, host)?;
    if is_since(marked, minute) {
        return Ok(());
    }
    submit_due(alloc, host, store, context, zone, entries, minute, numbers)
}

// Whether the mark is of the minute or of a later one.
fn is_since(marked: Option<u32>, minute: u32) -> bool
    ensures { result ≡ is_since minute marked }
{
    match marked {
        Some(marked) => marked >= minute,
        None => false,
    }
}

// Marks the minute, and submits what is due at it.
fn submit_due<H: Host>(
    alloc: Global,
    host: &mut H,
    store: Store,
    context: &Context,
    zone: &Zone,
    entries: &[CronEntry],
    minute: u32,
    numbers: &mut Vec<u32>,
) -> Result<(), StoreFault>
    requires inside { IsInside (H.session host.old) }
    requires fit { IsUsableContext context.now }
    requires umask { context.now.umask < 512 }
    requires zone { IsReadable zone.now }
    requires minute { IsClockMinute minute }
    requires commands { All (λ entry. length entry.command ≤ MAX_CRONTAB) entries.now }
    requires none { numbers.old.items ≡ [] }
    requires current { IsTrue H.tells → (table : JobTable) × IsCurrent store (H.world host.old).now.directory table }
    requires durable { IsTrue H.tells → IsDurableAt mark_temp (H.world host.old).now.directory }
    ensures { (now : ℤ) → minute ≡ minute_at now
        → SubmitsDue H.tells (H.session host.old) (H.session host.new) (H.world host.old) (H.world host.new)
        store (record { context = context.now; zone = zone.now; entries = entries.now; now = now }) numbers.new.items result }
{
    let found = due_at(alloc, entries, minute, zone)?;
    let due = found.as_slice();
    check_room_and_numbers(&store, due, numbers)?;
    mark_and_submit(alloc, host, store, context, minute, due, numbers)
}
