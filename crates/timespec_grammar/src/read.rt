//! What was read so far.
use crate::{Clock, DatePart, Timespec};

/// What the tokens so far are, which decides what may follow them.
#[derive(Clone, Copy)]
pub enum Read {
    Nothing,
    /// An hour in one number.
    Hour(u8),
    /// An hour and its colon.
    HourColon(u8),
    /// An hour and a minute, with a colon between them or without one.
    HourMinute(u8, u8),
    /// An hour and a minute of the 24-hour clock, from a 12-hour clock and its half.
    Half(u8, u8),
    /// A whole time.
    Timed(Clock),
    /// A time and a month.
    MonthNamed(Clock, u8),
    /// A time, a month and a day.
    DayNamed(Clock, u8, u8),
    /// A time, a month, a day and the mark before the year.
    YearDue(Clock, u8, u8),
    /// A time and a number that begins a date, with its digits.
    DateNumber(Clock, u8, u32),
    /// A time, a month and a slash.
    MonthSlash(Clock, u8),
    /// A time, a month, a slash and a day.
    SlashDay(Clock, u8, u8),
    /// A time, a day and a dot.
    DayDot(Clock, u8),
    /// A time, a day, a dot and a month; the month comes first here.
    DotMonth(Clock, u8, u8),
    /// A time, a year and a dash.
    YearDash(Clock, u16),
    /// A time, a year, a dash and a month; the month comes first here.
    DashMonth(Clock, u8, u16),
    /// A time, a year, a month and the dash before the day.
    DayDue(Clock, u8, u16),
    /// All that may come before an increment.
    Dated(Clock, DatePart),
    /// The same and a plus.
    Added(Clock, DatePart),
    /// The same and a count.
    Counted(Clock, DatePart, u32),
    /// What may come before an increment, and `next`.
    Following(Clock, DatePart),
    /// A timespec with its increment.
    Whole(Timespec),
}
