//! Why a time means no minute.

/// The cause of a refusal, in the order in which they are tried, and an out-of-memory error.
#[derive(Clone, Copy, Debug, PartialEq, Eq)]
pub enum DateFault {
    NoSuchDay,
    OutOfRange,
    Past,
    Memory,
}
