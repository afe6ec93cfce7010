//! What the records come to for one owner.
use spool_model::UserName;

/// How many counts a line has: seen, started, finished, not started, interrupted, removed, lost.
pub const KINDS: usize = 7;

/// How many jobs of a user in a queue were seen, and what became of them, in the order of `KINDS`.
#[derive(Clone, Copy)]
pub struct AccountLine {
    pub user: UserName,
    pub queue: u8,
    pub counts: [u64; KINDS],
}
