//! Days on which an entry is not due.
ghost use Rattle.std.specs.Prelude.{◌≡◌, ◌≤◌, ◌+◌, ◌-ℤ◌, pos, IsTrue};
ghost use Rattle.cron_turn.specs.inside.Dates.{AreIdleDates, HasDate, IsIdleDate};

use civil_minute::CivilMinute;
use cron_minutes::is_date_due;
use cron_text::CronEntry;
use jiff_core::civil::Date;

// Whether the entry is due on no date that a clock in some zone shows during the day of UTC. No zone is more than 26
// hours from UTC, so these dates are the day's own, the two before it and the two after it.
pub(crate) fn is_idle_day(entry: &CronEntry, day: u32) -> bool
    requires { day ≤ 3_000_000 }
    ensures { IsTrue result → AreIdleDates entry.now day (day + 5) }
{
    for date in day..day + 5 {
        if !is_idle_date(entry, date) {
            return false;
        }
    }
    true
}

// Whether the entry is due at no time of the date, which is counted from the second day before the first of 1970.
fn is_idle_date(entry: &CronEntry, date: u32) -> bool
    ensures { IsTrue result → IsIdleDate entry.now (pos date -ℤ pos 2) }
{
    match Date::from_unix_epoch_day(i64::from(date) - 2) {
        Ok(date) => !is_date_due(entry, &midnight(date)),
        Err(_) => false,
    }
}

fn midnight(date: Date) -> CivilMinute
    ensures { HasDate date result }
{
    CivilMinute {
        year: date.year,
        month: date.month,
        day: date.day,
        hour: 0,
        minute: 0,
        second: 0,
        weekday: (date.weekday().index() + 1) % 7,
    }
}
