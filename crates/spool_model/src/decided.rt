//! A job that is done.
use crate::Fate;

/// How many done jobs are remembered after a removal and after a turn.
pub const MAX_DONE: usize = 10_000;

/// A job that is done, by its number.
#[derive(Clone, Copy, Debug, PartialEq, Eq)]
pub struct Decided {
    pub number: u32,
    pub fate: Fate,
}
