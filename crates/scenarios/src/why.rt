//! Why a line is refused.
use std::alloc::AllocError;
use thiserror::Error;

/// Why a line is refused, or that there is no memory.
#[derive(Debug, Drop, PartialEq, Eq, Error)]
pub enum Why {
    #[error("no such line")]
    NoSuchLine,
    #[error("a quote or an escape that is none")]
    Quote,
    #[error("too many words or too few")]
    Count,
    #[error("a number that is none or out of its range")]
    Number,
    #[error("a name that no file has")]
    Name,
    #[error("bytes that are no text")]
    Text,
    #[error("no scenario has begun")]
    NoScenario,
    #[error("an event stands before it")]
    Partial,
    #[error("out of memory")]
    Memory,
}

impl From<AllocError> for Why {
    fn from(_: AllocError) -> Why {
        Why::Memory
    }
}
