//! Tokens with their places.
use crate::Token;

/// A token and the byte at which it begins.
#[derive(Clone, Copy, Debug, Default, PartialEq, Eq)]
pub struct Placed {
    pub token: Token,
    pub place: u64,
}
