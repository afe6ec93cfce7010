//! The refusal of a text that has no tokens.

/// The text is refused at this byte.
#[derive(Clone, Copy, Debug, PartialEq, Eq)]
pub struct LexFault {
    pub place: u64,
}
