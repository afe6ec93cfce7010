//! What is due of a crontab.
ghost use Rattle.std.specs.Prelude.{◌≡◌, ◌∷◌, ◌++◌, [], IfOk, OnOk};
ghost use Rattle.civil_minute.specs.Zone.{IsReadable};
ghost use Rattle.host_calls.specs.ClockRange.{IsClockMinute};
ghost use Rattle.cron_session.specs.inside.Due.{AreDueAt, due_commands};

use civil_minute::{CivilMinute, Zone, civil_of};
use cron_minutes::{commands_of, matches};
use cron_text::CronEntry;
use host_calls::Bytes;
use std::alloc::{AllocError, Global};

// The commands of the entries that are due at the civil minute, in the order of the entries.
fn due_commands(
    alloc: Global,
    entries: &[CronEntry],
    civil: &CivilMinute,
) -> Result<Vec<Bytes>, AllocError>
    ensures { IfOk result (λ made. made.items ≡ due_commands entries.now civil.now) }
{
    let mut due = Vec::new(alloc);
    for entry in entries {
        put_due(alloc, &mut due, entry, civil)?;
    }
    Ok(due)
}

// Puts the commands of the entry after the others, where it is due at the civil minute.
fn put_due(
    alloc: Global,
    due: &mut Vec<Bytes>,
    entry: &CronEntry,
    civil: &CivilMinute,
) -> Result<(), AllocError>
    ensures { OnOk result (due.new.items ≡ due.old.items ++ due_commands (entry.now ∷ []) civil.now) }
{
    if !matches(entry, civil) {
        return Ok(());
    }
    due.push(commands_of(alloc, entry)?)?;
    Ok(())
}

// The commands of the entries that are due at the minute.
pub(crate) fn due_at(
    alloc: Global,
    entries: &[CronEntry],
    minute: u32,
    zone: &Zone,
) -> Result<Vec<Bytes>, AllocError>
    requires minute { IsClockMinute minute }
    requires zone { IsReadable zone.now }
    ensures { IfOk result (λ made. AreDueAt entries.now minute zone.now made.items) }
{
    let civil = civil_of(alloc, minute, zone)?;
    due_commands(alloc, entries, &civil)
}
