//! The minute that a time means.
ghost use Rattle.std.specs.Prelude.{◌≡◌, ◌≤◌, ◌<◌, ◌+ℤ◌, pos, neg_ℤ, IfSome, IfOk, IfErr, false};
ghost use Rattle.jiff.specs.Words.{IsBetween, epoch_day};
ghost use Rattle.jiff_core.specs.Time.{time_seconds};
ghost use Rattle.host_calls.specs.ClockRange.{IsClockMinute, IsClockSecond};
ghost use Rattle.civil_minute.specs.Meant.{Becomes, IsAnswer, IsBaseInstant, IsOnlyMeaning, IsOnlyTouchMeaning, IsPickable, IsTimeOfDay, TimespecMeans, TouchMeans};
ghost use Rattle.civil_minute.specs.Meant as meant;
ghost use Rattle.civil_minute.specs.Zone.{IsReadable};
ghost use Rattle.civil_minute.specs.inside.Reckoning.{LeavesRange};

use crate::civil::{LAST_YEAR, SECONDS_A_DAY, SECONDS_AN_HOUR, local_at};
use crate::later::{MAX_ADDED, MAX_INSTANT, instant_of, later_date, later_seconds};
use crate::picked::{date_in, picked_date, year_of_touch};
use crate::{DateFault, Zone};
use host_calls::{is_clock_second, minute_at};
use jiff_core::civil::{Date, Time};
use std::alloc::Global;
use timespec_grammar::{Clock, Increment, Timespec};
use timespec_lexer::Period;
use touch_time::TouchTime;

/// The minute that a time means at a second now in the caller's zone. It takes no memory yet.
pub fn minute_of(_alloc: Global, spec: &Timespec, now: i64, zone: &Zone) -> Result<u32, DateFault>
    requires clock { IsTimeOfDay spec.now.clock }
    requires date { IsPickable spec.now.date }
    requires now { IsClockSecond now }
    requires zone { IsReadable zone.now }
    ensures meant { TimespecMeans spec.now now zone.now result }
    ensures only { IsOnlyMeaning spec.now now zone.now result }
    ensures in_range { IfOk result IsClockMinute }
{
    let zone = zone_of_clock(spec.clock, zone);
    let local = local_at(now, &zone).to_plain();
    let given = second_of_clock(spec.clock, local.time);
    let date = picked_date(spec.date, given, local)?;
    let instant = keeps_instant(spec.clock, spec.increment);
    minute_on(instant, &zone, now, date, given, spec.increment)
}

/// The minute that a time of `-t` means, likewise.
pub fn minute_of_touch(
    _alloc: Global,
    time: &TouchTime,
    now: i64,
    zone: &Zone,
) -> Result<u32, DateFault>
    requires year { IfSome time.now.year (λ year. year ≤ LAST_YEAR) }
    requires hour { time.now.hour ≤ 23 }
    requires minute { time.now.minute ≤ 59 }
    requires now { IsClockSecond now }
    requires zone { IsReadable zone.now }
    ensures meant { TouchMeans time.now now zone.now result }
    ensures only { IsOnlyTouchMeaning time.now now zone.now result }
    ensures in_range { IfOk result IsClockMinute }
{
    let today = local_at(now, zone).to_plain().date;
    let date = date_in(year_of_touch(time.year, today), time.month, time.day)?;
    let given = u32::from(time.hour) * SECONDS_AN_HOUR + u32::from(time.minute) * 60;
    minute_on(false, zone, now, date, given, None)
}

// The zone that the time is in.
fn zone_of_clock(clock: Clock, zone: &Zone) -> Zone
    ensures { result ≡ meant.zone_meant clock zone.now }
{
    match clock {
        Clock::At { utc: true, .. } => Zone::Utc,
        _ => *zone,
    }
}

// The given time of day in seconds, where the clock now shows `time`.
fn second_of_clock(clock: Clock, time: Time) -> u32
    requires { IsTimeOfDay clock }
    ensures value { result ≡ meant.given_second clock (time_seconds time) }
    ensures bound { result < SECONDS_A_DAY }
{
    match clock {
        Clock::Now => time.to_second(),
        Clock::At { hour, minute, .. } => u32::from(hour) * SECONDS_AN_HOUR
            + u32::from(minute) * 60,
    }
}

// Whether the time is the instant now itself, before minutes and hours are added.
fn keeps_instant(clock: Clock, later: Option<Increment>) -> bool
    ensures { result ≡ meant.is_instant clock later }
{
    match (clock, later) {
        (Clock::Now, None) => true,
        (Clock::Now, Some(later)) => matches!(later.period, Period::Minute | Period::Hour),
        _ => false,
    }
}

// The minute of a date and a time of day, after an increment.
fn minute_on(
    instant: bool,
    zone: &Zone,
    now: i64,
    date: Date,
    given: u32,
    later: Option<Increment>,
) -> Result<u32, DateFault>
    requires given { given < SECONDS_A_DAY }
    requires now { IsClockSecond now }
    requires zone { IsReadable zone.now }
    ensures { Becomes instant zone.now now date given later result }
{
    let date = later_date(date, later)?;
    let start = start_of(instant, zone, now, date, given)?;
    answer_at(now, start, later_seconds(later))
}

// The instant to which minutes and hours are added.
fn start_of(instant: bool, zone: &Zone, now: i64, date: Date, given: u32) -> Result<i64, DateFault>
    requires given { given < SECONDS_A_DAY }
    requires now { IsClockSecond now }
    requires zone { IsReadable zone.now }
    ensures ok { IfOk result (IsBaseInstant instant zone.now now (epoch_day date) given) }
    ensures bound { IfOk result (IsBetween (neg_ℤ MAX_INSTANT) MAX_INSTANT) }
    ensures err { IfErr result (λ e. (e ≡ DateFault.OutOfRange)
        × (instant ≡ false) × LeavesRange zone.now (epoch_day date) given) }
{
    if instant {
        return Ok(now);
    }
    instant_of(date, given, zone)
}

// The minute so many seconds after an instant, unless that lies before the minute of now.
fn answer_at(now: i64, start: i64, seconds: i64) -> Result<u32, DateFault>
    requires now { IsClockSecond now }
    requires start { IsBetween (neg_ℤ MAX_INSTANT) MAX_INSTANT start }
    requires seconds { IsBetween (pos 0) MAX_ADDED seconds }
    ensures { IsAnswer now start (start +ℤ seconds) result }
{
    let end = start + seconds;
    if !is_clock_second(start) || !is_clock_second(end) {
        return Err(DateFault::OutOfRange);
    }
    let minute = minute_at(end);
    if minute < minute_at(now) {
        return Err(DateFault::Past);
    }
    Ok(minute)
}
