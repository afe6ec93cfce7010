//! Whether an entry is due.
ghost use Rattle.std.specs.Prelude.{◌≡◌};
ghost use Rattle.cron_minutes.specs.Due.{has, is_date_due, is_entry_due};

use civil_minute::CivilMinute;
use cron_text::{CronEntry, Field};

/// Whether the entry is due at the civil minute.
pub fn matches(entry: &CronEntry, civil: &CivilMinute) -> bool
    ensures { result ≡ is_entry_due entry.now civil.now }
{
    has(&entry.minute, civil.minute) && has(&entry.hour, civil.hour) && is_date_due(entry, civil)
}

/// Whether the entry is due at some time of the civil day.
pub fn is_date_due(entry: &CronEntry, civil: &CivilMinute) -> bool
    ensures { result ≡ is_date_due entry.now civil.now }
{
    let is_day = has(&entry.month, civil.month) && has(&entry.day, civil.day);
    let is_weekday = has(&entry.weekday, civil.weekday);
    if entry.month.star && entry.day.star {
        is_weekday
    } else if entry.weekday.star {
        is_day
    } else {
        is_day || is_weekday
    }
}

// No field holds a number from 64 on.
fn has(field: &Field, value: u8) -> bool
    ensures { result ≡ has field.now value }
{
    let bits = field.bits;
    value < 64 && (bits >> value) & 1 == 1
}
