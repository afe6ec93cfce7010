//! A date and an instant after an increment.
ghost use Rattle.std.specs.Prelude.{◌≡◌, ◌<◌, ◌+ℤ◌, pos, neg_ℤ, IfOk, IfErr};
ghost use Rattle.jiff.specs.Words.{epoch_day, add_months, IsBetween, IsEpochDay};
ghost use Rattle.civil_minute.specs.Meant.{IsInstantOf};
ghost use Rattle.civil_minute.specs.Meant as meant;
ghost use Rattle.civil_minute.specs.Zone.{IsReadable};
ghost use Rattle.civil_minute.specs.inside.Reckoning.{LeavesRange};

use crate::civil::{SECONDS_A_DAY, SECONDS_AN_HOUR};
use crate::zone::time_zone;
use crate::{DateFault, Zone};
use jiff_core::civil::{Date, DateTime, Time};
use jiff_span::date::add_months;
use timespec_grammar::Increment;
use timespec_lexer::Period;

/// No instant that `jiff` has is farther from 1970 than so many seconds.
pub(crate) const MAX_INSTANT: i64 = 400_000_000_000;

/// No increment adds more seconds.
pub(crate) const MAX_ADDED: i64 = 20_000_000_000_000;

// It reckons by `jiff_core`, whose contracts are exact on day numbers; the spans of `jiff` bring limits of their own.
/// The date after the days, weeks, months and years of an increment.
pub(crate) fn later_date(date: Date, later: Option<Increment>) -> Result<Date, DateFault>
    ensures ok { IfOk result (λ day. epoch_day day ≡ meant.later_day later date) }
    ensures err { IfErr result (λ e. (e ≡ DateFault.OutOfRange)
        × ¬ (IsEpochDay (meant.later_day later date))) }
{
    let Some(Increment { count, period }) = later else {
        return Ok(date);
    };
    match period {
        Period::Minute | Period::Hour => Ok(date),
        Period::Day => days_later(date, i64::from(count)),
        Period::Week => days_later(date, 7 * i64::from(count)),
        Period::Month => months_later(date, u64::from(count)),
        Period::Year => months_later(date, 12 * u64::from(count)),
    }
}

fn days_later(date: Date, days: i64) -> Result<Date, DateFault>
    ensures ok { IfOk result (λ day. epoch_day day ≡ epoch_day date +ℤ days) }
    ensures err { IfErr result (λ e. (e ≡ DateFault.OutOfRange)
        × ¬ (IsEpochDay (epoch_day date +ℤ days))) }
{
    match date.checked_add(days) {
        Ok(day) => Ok(day),
        Err(_) => Err(DateFault::OutOfRange),
    }
}

fn months_later(date: Date, months: u64) -> Result<Date, DateFault>
    ensures ok { IfOk result (λ day. epoch_day day ≡ add_months date (pos months)) }
    ensures err { IfErr result (λ e. (e ≡ DateFault.OutOfRange)
        × ¬ (IsEpochDay (add_months date (pos months)))) }
{
    // The calendar ends before so many months, from whichever of its dates.
    if months > 300_000 {
        return Err(DateFault::OutOfRange);
    }
    match add_months(date, months as i32) {
        Ok(day) => Ok(day),
        Err(_) => Err(DateFault::OutOfRange),
    }
}

/// The instant of a time of day, given in seconds, on a date in the zone.
pub(crate) fn instant_of(date: Date, given: u32, zone: &Zone) -> Result<i64, DateFault>
    requires given { given < SECONDS_A_DAY }
    requires zone { IsReadable zone.now }
    ensures ok { IfOk result (IsInstantOf zone.now (epoch_day date) given) }
    ensures bound { IfOk result (IsBetween (neg_ℤ MAX_INSTANT) MAX_INSTANT) }
    ensures err { IfErr result (λ e. (e ≡ DateFault.OutOfRange)
        × LeavesRange zone.now (epoch_day date) given) }
{
    let time = Time::from_second(given, 0);
    match time_zone(zone)
        .to_plain()
        .to_timestamp(DateTime { date, time })
    {
        Ok(instant) => Ok(instant.floor_second()),
        Err(_) => Err(DateFault::OutOfRange),
    }
}

/// The seconds that the minutes and hours of an increment add.
pub(crate) fn later_seconds(later: Option<Increment>) -> i64
    ensures value { result ≡ pos (meant.later_seconds later) }
    ensures bound { IsBetween (pos 0) MAX_ADDED result }
{
    let Some(Increment { count, period }) = later else {
        return 0;
    };
    match period {
        Period::Minute => 60 * i64::from(count),
        Period::Hour => i64::from(SECONDS_AN_HOUR) * i64::from(count),
        _ => 0,
    }
}
