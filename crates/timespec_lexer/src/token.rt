//! Tokens.
use crate::Period;

/// One token of a time.
#[derive(Clone, Copy, Debug, Default, PartialEq, Eq)]
pub enum Token {
    /// A run of digits, with their count.
    Number { digits: u8, value: u32 },
    Colon,
    Comma,
    Plus,
    Slash,
    Dot,
    Dash,
    #[default]
    Now,
    Noon,
    Midnight,
    Teatime,
    Today,
    Tomorrow,
    Next,
    Am,
    Pm,
    Utc,
    /// January is 1.
    Month(u8),
    /// Sunday is 0.
    Weekday(u8),
    Unit(Period),
}
