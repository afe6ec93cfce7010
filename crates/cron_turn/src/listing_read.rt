//! The clock and the file are read, and the listing is made of them.
ghost use Rattle.std.specs.Prelude.{◌≤◌, ◌+◌};
ghost use Rattle.civil_minute.specs.Zone.{IsReadable};
ghost use Rattle.host_calls.specs.declared.clock_seconds.TheConstants.{LAST_MINUTE};
ghost use Rattle.cron_turn.specs.ListingRun.{GivesListing, read_at};
ghost use Rattle.cron_turn.specs.inside.AddedLines.{GivesText};

use crate::listing_lines::crontab_listing;
use crate::listing_words::NextRequest;
use crate::read_entries;
use civil_minute::Zone;
use cron_text::CronEntry;
use host_calls::{Bytes, Inputs, Readings, is_clock_second, minute_at};
use listing_text::{Cause, Refusal};
use std::alloc::Global;
use tool_output::CommandError;

// The listing from the minute after that of the clock on.
pub(crate) fn read_listing<R: Readings, I: Inputs>(
    alloc: Global,
    request: &NextRequest,
    zone: &Zone,
    readings: &mut R,
    inputs: &mut I,
) -> Result<Bytes, CommandError>
    requires { IsReadable zone.now }
    ensures { GivesListing R.tells I.tells zone.now request.now
        (read_at R.Readings I.Inputs readings.old inputs.old)
        (read_at R.Readings I.Inputs readings.new inputs.new) result }
{
    let now = readings.now();
    if !is_clock_second(now) {
        return Err(CommandError::refused(Refusal::BadClock));
    }
    match read_entries(alloc, request.file.as_str(), inputs) {
        Ok(entries) => {
            let from = minute_at(now) + 1;
            crontab_listing_text(alloc, entries.as_slice(), zone, from, request.count)
        }
        Err(stopped) => Err(stopped),
    }
}

// The listing of the entries, or an out-of-memory error.
fn crontab_listing_text(
    alloc: Global,
    entries: &[CronEntry],
    zone: &Zone,
    from: u32,
    count: u32,
) -> Result<Bytes, CommandError>
    requires from { from ≤ LAST_MINUTE + 1 }
    requires zone { IsReadable zone.now }
    ensures { GivesText zone.now from count entries.now result }
{
    match crontab_listing(alloc, entries, zone, from, count) {
        Ok(text) => Ok(text),
        Err(_) => Err(CommandError {
            cause: Cause::Memory,
        }),
    }
}
