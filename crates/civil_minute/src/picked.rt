//! The date that a time picks.
ghost use Rattle.std.specs.Prelude.{◌≡◌, ◌≤◌, ◌≤ℤ◌, pos, IfOk, IfErr, IfSome};
ghost use Rattle.jiff.specs.Words.{epoch_day};
ghost use Rattle.jiff_core.specs.Time.{time_seconds};
ghost use Rattle.jiff_core.specs.Calendar.{IsCivilDate};
ghost use Rattle.civil_minute.specs.Meant.{IsDateOf, IsFirstAwaited, IsPickable, IsPicked, NamesNoDay};
ghost use Rattle.civil_minute.specs.Meant as meant;
ghost use Rattle.civil_minute.specs.inside.Reckoning as reckoning;

use crate::DateFault;
use crate::civil::LAST_YEAR;
use jiff_core::civil::{Date, DateTime};
use timespec_grammar::DatePart;

// On no later day is it now: from there on the calendar still has some weeks.
const LAST_TODAY: i64 = 2_932_800;

/// The date that is picked for a time of day, given in seconds, where the clock now shows `local`.
pub(crate) fn picked_date(date: DatePart, given: u32, local: DateTime) -> Result<Date, DateFault>
    requires date { IsPickable date }
    requires local { epoch_day local.date ≤ℤ LAST_TODAY }
    ensures ok { IfOk result (IsPicked date given local.date (time_seconds local.time)) }
    ensures err { IfErr result (λ e. (e ≡ DateFault.NoSuchDay) × NamesNoDay date local.date) }
{
    let today = local.date;
    match date {
        DatePart::Absent => Ok(if local.time.to_second() <= given {
            today
        } else {
            today.next()
        }),
        DatePart::MonthDay { month, day, year } => {
            date_in(year_of_month(year, month, today), month, day)
        }
        DatePart::Weekday(weekday) => Ok(first_awaited(weekday, given, local)),
        DatePart::Today => Ok(today),
        DatePart::Tomorrow => Ok(today.next()),
    }
}

/// The day of a year and a month.
pub(crate) fn date_in(year: i16, month: u8, day: u8) -> Result<Date, DateFault>
    ensures ok { IfOk result (IsDateOf year month day) }
    ensures err { IfErr result (λ e. (e ≡ DateFault.NoSuchDay) × ¬ (IsCivilDate year month day)) }
{
    if month > 12 || day > 31 {
        return Err(DateFault::NoSuchDay);
    }
    match Date::new(year, month as i8, day as i8) {
        Ok(date) => Ok(date),
        Err(_) => Err(DateFault::NoSuchDay),
    }
}

fn year_of_month(year: Option<u16>, month: u8, today: Date) -> i16
    requires { IfSome year (λ given. given ≤ LAST_YEAR) }
    ensures { result ≡ meant.year_of_month year month today }
{
    match year {
        Some(year) => year as i16,
        None if month < today.month => today.year + 1,
        None => today.year,
    }
}

/// The year of a time of `-t`.
pub(crate) fn year_of_touch(year: Option<u16>, today: Date) -> i16
    requires { IfSome year (λ given. given ≤ LAST_YEAR) }
    ensures { result ≡ meant.year_of_touch year today }
{
    match year {
        Some(year) => year as i16,
        None => today.year,
    }
}

// The first day with the weekday, counted from Sunday, on which the given time is still to come.
fn first_awaited(weekday: u8, given: u32, local: DateTime) -> Date
    requires weekday { weekday ≤ 6 }
    requires local { epoch_day local.date ≤ℤ LAST_TODAY }
    ensures { IsFirstAwaited weekday given (epoch_day local.date) (time_seconds local.time)
        (epoch_day result) }
{
    let passed = given <= local.time.to_second();
    let ahead = days_ahead(weekday, (local.date.weekday().index() + 1) % 7, passed);
    local.date.checked_add(i64::from(ahead)).unwrap()
}

// How many days lie between a weekday and the next one, which is a week on where they are the same
// and that day's time has passed.
fn days_ahead(weekday: u8, today: u8, passed: bool) -> u8
    requires weekday { weekday ≤ 6 }
    requires today { today ≤ 6 }
    ensures value { result ≡ reckoning.days_ahead weekday today passed }
    ensures bound { result ≤ 7 }
{
    if weekday == today && passed {
        return 7;
    }
    (weekday + 7 - today) % 7
}
