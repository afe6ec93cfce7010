//! The refusal of tokens that spell no timespec.

/// The first token that no timespec has there, or the number of tokens where they end too early.
#[derive(Clone, Copy, Debug, PartialEq, Eq)]
pub struct GrammarFault {
    pub token: usize,
}
