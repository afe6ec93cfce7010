//! A token and where it ends.
use crate::Token;

/// A token that was found at some place, and the place after it.
#[derive(Clone, Copy)]
pub struct Found {
    pub token: Token,
    pub end: usize,
}
