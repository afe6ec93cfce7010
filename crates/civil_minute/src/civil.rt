//! The civil time of a minute.
ghost use Rattle.std.specs.Prelude.{◌*◌, pos, IsOk, IfOk};
ghost use Rattle.host_calls.specs.ClockRange.{IsClockMinute, IsClockSecond};
ghost use Rattle.civil_minute.specs.Civil.{IsCivilTime, IsPrintable};
ghost use Rattle.civil_minute.specs.inside.Reckoning.{HasFields, IsLocalTime};
ghost use Rattle.civil_minute.specs.Zone.{IsReadable};

use crate::Zone;
use crate::zone::time_zone;
use jiff::Timestamp;
use jiff::civil::DateTime;
use std::alloc::{AllocError, Global};

/// The seconds of a day; there are no leap seconds.
pub const SECONDS_A_DAY: u32 = 86_400;

/// The seconds of an hour.
pub const SECONDS_AN_HOUR: u32 = 3_600;

/// The last year of the calendar.
pub const LAST_YEAR: u16 = 9_999;

/// A civil time. Months and days count from 1, weekdays from 0 (Sunday).
#[derive(Clone, Copy, Debug, PartialEq, Eq)]
pub struct CivilMinute {
    pub year: i16,
    pub month: u8,
    pub day: u8,
    pub hour: u8,
    pub minute: u8,
    pub second: u8,
    pub weekday: u8,
}

/// What a clock in the zone shows at the first second of a minute. It takes no memory yet.
pub fn civil_of(_alloc: Global, minute: u32, zone: &Zone) -> Result<CivilMinute, AllocError>
    requires minute { IsClockMinute minute }
    requires zone { IsReadable zone.now }
    ensures answers { IsOk result }
    ensures value { IfOk result (IsCivilTime zone.now (pos (60 * minute))) }
    ensures printable { IfOk result IsPrintable }
{
    Ok(fields_of(local_at(60 * i64::from(minute), zone)))
}

/// What a clock in the zone shows at a second since 1970.
pub(crate) fn local_at(second: i64, zone: &Zone) -> DateTime
    requires second { IsClockSecond second }
    requires zone { IsReadable zone.now }
    ensures { IsLocalTime zone.now second result }
{
    time_zone(zone).to_datetime(Timestamp::constant(second, 0))
}

fn fields_of(local: DateTime) -> CivilMinute
    ensures { HasFields local result }
{
    CivilMinute {
        year: local.year(),
        month: local.month() as u8,
        day: local.day() as u8,
        hour: local.hour() as u8,
        minute: local.minute() as u8,
        second: local.second() as u8,
        weekday: local.weekday().to_sunday_zero_offset() as u8,
    }
}
