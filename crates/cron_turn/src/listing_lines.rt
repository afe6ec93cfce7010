//! The lines of entries and their minutes.
ghost use Rattle.std.specs.Prelude.{◌≡◌, ◌≤◌, ◌+◌, ◌++◌, ◌==◌, All, IfOk, OnOk, length};
ghost use Rattle.civil_minute.specs.Zone.{IsReadable};
ghost use Rattle.host_calls.specs.ClockRange.{IsClockMinute};
ghost use Rattle.host_calls.specs.declared.clock_seconds.TheConstants.{LAST_MINUTE};
ghost use Rattle.cron_turn.specs.Listing.{AreMinuteLines, IsCronListing, ListsEntry, ShowsMinute, ShowsMinutes, dated_line};
ghost use Rattle.cron_turn.specs.inside.AddedLines.{Adds};

use crate::next_due;
use civil_minute::{Zone, civil_of};
use cron_text::CronEntry;
use host_calls::Bytes;
use listing_text::date_text;
use std::alloc::{AllocError, Global};

// What is in place of a date where the entry is due at no minute that was searched.
const NEVER: &[u8] = b"not within nine years";

// The lines of the entries, in order: the next minutes of each from this one on.
pub(crate) fn crontab_listing(
    alloc: Global,
    entries: &[CronEntry],
    zone: &Zone,
    from: u32,
    count: u32,
) -> Result<Bytes, AllocError>
    requires from { from ≤ LAST_MINUTE + 1 }
    requires zone { IsReadable zone.now }
    ensures { IfOk result (IsCronListing zone.now from count entries.now) }
{
    let mut text = Vec::new(alloc);
    for entry in entries {
        add_entry(alloc, &mut text, entry, zone, from, count)?;
    }
    Ok(Bytes::from(text))
}

// Adds the lines of an entry.
fn add_entry(
    alloc: Global,
    text: &mut Vec<u8>,
    entry: &CronEntry,
    zone: &Zone,
    from: u32,
    count: u32,
) -> Result<(), AllocError>
    requires from { from ≤ LAST_MINUTE + 1 }
    requires zone { IsReadable zone.now }
    ensures { OnOk result (Adds (ListsEntry zone.now from count entry.now) text.old.items text.new.items) }
{
    let minutes = next_due(alloc, entry, zone, from, count)?;
    add_found(alloc, text, &minutes, zone, entry.command.as_slice())?;
    Ok(())
}

// Adds the lines of the minutes that were found, or the line that there is none.
fn add_found(
    alloc: Global,
    text: &mut Vec<u8>,
    minutes: &[u32],
    zone: &Zone,
    command: &[u8],
) -> Result<(), AllocError>
    requires minutes { All IsClockMinute minutes.now }
    requires zone { IsReadable zone.now }
    ensures { OnOk result (Adds (ShowsMinutes zone.now command.now minutes.now) text.old.items text.new.items) }
{
    if is_none(minutes) {
        add_minute_line(text, NEVER, command)?;
        return Ok(());
    }
    add_minutes(alloc, text, minutes, zone, command)?;
    Ok(())
}

fn is_none(minutes: &[u32]) -> bool
    ensures { result ≡ (length minutes.now == 0) }
{
    minutes.is_empty()
}

// Adds a line for each of the minutes.
fn add_minutes(
    alloc: Global,
    text: &mut Vec<u8>,
    minutes: &[u32],
    zone: &Zone,
    command: &[u8],
) -> Result<(), AllocError>
    requires minutes { All IsClockMinute minutes.now }
    requires zone { IsReadable zone.now }
    ensures { OnOk result (Adds (AreMinuteLines zone.now command.now minutes.now) text.old.items text.new.items) }
{
    for minute in minutes {
        add_minute(alloc, text, *minute, zone, command)?;
    }
    Ok(())
}

// Adds the line of a minute.
fn add_minute(
    alloc: Global,
    text: &mut Vec<u8>,
    minute: u32,
    zone: &Zone,
    command: &[u8],
) -> Result<(), AllocError>
    requires minute { IsClockMinute minute }
    requires zone { IsReadable zone.now }
    ensures { OnOk result (Adds (ShowsMinute zone.now command.now minute) text.old.items text.new.items) }
{
    let civil = civil_of(alloc, minute, zone)?;
    add_minute_line(text, &date_text(&civil), command)?;
    Ok(())
}

// Adds a line: when it is, and the command.
fn add_minute_line(text: &mut Vec<u8>, when: &[u8], command: &[u8]) -> Result<(), AllocError>
    ensures { OnOk result (text.new.items ≡ text.old.items ++ dated_line when.now command.now) }
{
    text.extend_from_slice(when)?;
    text.push(b'\t')?;
    text.extend_from_slice(command)?;
    text.push(b'\n')?;
    Ok(())
}
