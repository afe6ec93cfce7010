//! What is noted of a job.
use spool_model::UserName;

/// Whose a job is, and its queue, a letter.
#[derive(Clone, Copy)]
pub struct Owner {
    pub user: UserName,
    pub queue: u8,
}

/// Why a job is no longer live.
#[derive(Clone, Copy, Debug, PartialEq, Eq)]
pub enum Closing {
    Finished,
    /// It was started, and could not be started.
    NotStarted,
    Interrupted,
    Removed,
    /// The spool has forgotten it.
    Lost,
}

/// What became of a job.
#[derive(Clone, Copy)]
pub enum AccountEvent {
    Seen(Owner),
    /// It was started.
    Started,
    Closed(Closing),
}

/// One event of a job, whose number is at least 1.
#[derive(Clone, Copy)]
pub struct AccountRecord {
    pub number: u32,
    pub event: AccountEvent,
}
