//! The minutes at which an entry is due, from one on.
ghost use Rattle.std.specs.Prelude.{◌≡◌, ◌≤◌, ◌+◌, ◌++◌, ◌∷◌, [], IfOk, OnOk};
ghost use Rattle.civil_minute.specs.Zone.{IsReadable};
ghost use Rattle.host_calls.specs.declared.clock_seconds.TheConstants.{LAST_MINUTE};
ghost use Rattle.cron_turn.specs.Schedule.{AreNextDue, end_of_search};

use crate::first::first_due;
use civil_minute::Zone;
use cron_text::CronEntry;
use host_calls::LAST_MINUTE;
use std::alloc::{AllocError, Global};

/// For how many minutes the next one is searched: nine years of 366 days. Two days of 29 February are eight years
/// apart at most, so a date that the calendar has comes within these.
pub const SEARCHED_MINUTES: u32 = 9 * 366 * 1_440;

/// The next minutes from this one on at which the entry is due by a clock in the zone: so many, or as many as there are
/// within nine years and the range of the clock.
pub fn next_due(
    alloc: Global,
    entry: &CronEntry,
    zone: &Zone,
    from: u32,
    count: u32,
) -> Result<Vec<u32>, AllocError>
    requires from { from ≤ LAST_MINUTE + 1 }
    requires zone { IsReadable zone.now }
    ensures { IfOk result (λ made. AreNextDue zone.now entry.now from count made.items) }
{
    let end = end_of_search(from);
    let mut minutes = Vec::new(alloc);
    let mut now = from;
    for _found in 0..count {
        let next = first_due(alloc, entry, zone, now, end)?;
        match next {
            None => return Ok(minutes),
            Some(minute) => {
                add_due_minute(&mut minutes, minute)?;
                now = minute + 1;
            }
        }
    }
    Ok(minutes)
}

fn add_due_minute(minutes: &mut Vec<u32>, minute: u32) -> Result<(), AllocError>
    ensures { OnOk result (minutes.new.items ≡ minutes.old.items ++ minute ∷ []) }
{
    minutes.push(minute)?;
    Ok(())
}

// The minute before which the search ends.
fn end_of_search(from: u32) -> u32
    ensures { result ≡ end_of_search from }
{
    if from > LAST_MINUTE - SEARCHED_MINUTES {
        LAST_MINUTE + 1
    } else {
        from + SEARCHED_MINUTES
    }
}
