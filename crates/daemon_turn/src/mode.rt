//! What a turn may do.

/// What a turn may do: all, or no starts.
#[derive(Clone, Copy, Debug, PartialEq, Eq)]
pub enum Mode {
    Full,
    EndsOnly,
}
