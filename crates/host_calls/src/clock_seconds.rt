//! The last minute and second, and the minute of a second.
ghost use Rattle.std.specs.Prelude.{◌≡◌, ◌↔◌, IsTrue};
ghost use Rattle.host_calls.specs.ClockRange.{IsClockMinute, IsClockSecond, is_clock_second, minute_at};

/// The last minute of the year 9998 in UTC, counted from 1970-01-01 00:00 UTC.
pub const LAST_MINUTE: u32 = 4_222_846_079;

/// The last second of that minute, counted from 1970-01-01 00:00:00 UTC.
pub const LAST_SECOND: i64 = 60 * LAST_MINUTE as i64 + 59;

/// Whether a clock may show the second.
pub fn is_clock_second(second: i64) -> bool
    ensures fact { IsTrue result ↔ IsClockSecond second }
    ensures value { result ≡ is_clock_second second }
{
    second >= 0 && second <= LAST_SECOND
}

/// The minute that the second lies in, both counted from 1970.
pub fn minute_at(second: i64) -> u32
    requires { IsClockSecond second }
    ensures value { result ≡ minute_at second }
    ensures range { IsClockMinute result }
{
    (second / 60) as u32
}
