//! The increment of a timespec.
use timespec_lexer::Period;

/// So many periods later.
#[derive(Clone, Copy, Debug, PartialEq, Eq)]
pub struct Increment {
    pub count: u32,
    pub period: Period,
}
