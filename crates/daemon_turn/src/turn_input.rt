//! When a turn is made.
use crate::Mode;

/// When a turn is made, at which load, if one was read, and what it may do.
#[derive(Clone, Copy, Debug, PartialEq, Eq)]
pub struct TurnInput {
    pub now: i64,
    pub load: Option<u32>,
    pub mode: Mode,
}
