//! The date of a timespec.

/// A day, as far as the timespec names it.
#[derive(Clone, Copy, Debug, PartialEq, Eq)]
pub enum DatePart {
    Absent,
    MonthDay {
        month: u8,
        day: u8,
        year: Option<u16>,
    },
    /// Sunday is 0.
    Weekday(u8),
    Today,
    Tomorrow,
}
