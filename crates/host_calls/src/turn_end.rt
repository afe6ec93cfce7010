//! How a session ends that works on a spool.
use crate::Damage;

/// How a session ended, as that of a turn.
#[derive(Clone, Copy)]
pub enum TurnEnd {
    /// The work was done.
    Done,
    /// Another program holds the lock.
    Busy,
    /// A call on the spool directory failed.
    FileFault,
    /// The directory shows a damage.
    Damaged(Damage),
    Memory,
}
