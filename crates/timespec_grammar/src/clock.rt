//! The time of day of a timespec.

/// The moment itself, or an hour and a minute of the 24-hour clock.
#[derive(Clone, Copy, Debug, PartialEq, Eq)]
pub enum Clock {
    Now,
    At { hour: u8, minute: u8, utc: bool },
}
