//! The first minute at which an entry is due.
ghost use Rattle.std.specs.Prelude.{◌≡◌, ◌≤◌, ◌+◌, IfOk};
ghost use Rattle.civil_minute.specs.Zone.{IsReadable};
ghost use Rattle.host_calls.specs.ClockRange.{IsClockMinute};
ghost use Rattle.host_calls.specs.declared.clock_seconds.TheConstants.{LAST_MINUTE};
ghost use Rattle.cron_turn.specs.Schedule.{IsDueAt, IsNotDueWithin};
ghost use Rattle.cron_turn.specs.inside.Dates.{IsFirstDue};

use crate::dates::is_idle_day;
use civil_minute::{Zone, civil_of};
use cron_minutes::matches;
use cron_text::CronEntry;
use std::alloc::{AllocError, Global};

// The minutes of a day; there are no leap seconds.
const MINUTES_A_DAY: u32 = 1_440;

// The first minute up to the end at which the entry is due, if there is one.
pub(crate) fn first_due(
    alloc: Global,
    entry: &CronEntry,
    zone: &Zone,
    from: u32,
    end: u32,
) -> Result<Option<u32>, AllocError>
    requires zone { IsReadable zone.now }
    requires end { end ≤ LAST_MINUTE + 1 }
    ensures { IfOk result (IsFirstDue zone.now entry.now from end) }
{
    let mut minute = from;
    while minute < end {
        let idle = idle_minutes(alloc, entry, zone, minute)?;
        if idle == 0 {
            return Ok(Some(minute));
        }
        minute += idle;
    }
    Ok(None)
}

// For how many minutes from this one on the entry is not due: a whole day where no date of the day is due, else this
// minute alone, or none where it is due at this very minute.
fn idle_minutes(
    alloc: Global,
    entry: &CronEntry,
    zone: &Zone,
    minute: u32,
) -> Result<u32, AllocError>
    requires minute { IsClockMinute minute }
    requires zone { IsReadable zone.now }
    ensures few { IfOk result (λ idle. idle ≤ MINUTES_A_DAY) }
    ensures due { IfOk result (λ idle. idle ≡ 0 → IsDueAt zone.now entry.now minute) }
    ensures idle { IfOk result (λ idle. IsNotDueWithin zone.now entry.now minute (minute + idle)) }
{
    if minute % MINUTES_A_DAY == 0 && is_idle_day(entry, minute / MINUTES_A_DAY) {
        return Ok(MINUTES_A_DAY);
    }
    let civil = civil_of(alloc, minute, zone)?;
    if matches(entry, &civil) { Ok(0) } else { Ok(1) }
}
