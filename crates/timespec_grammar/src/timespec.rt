//! Times as they are written.

use crate::{Clock, DatePart, Increment};

/// What a list of tokens spells.
#[derive(Clone, Copy, Debug, PartialEq, Eq)]
pub struct Timespec {
    pub clock: Clock,
    pub date: DatePart,
    pub increment: Option<Increment>,
}
