//! What is noted of the mail of a job.
use host_calls::Name;
use spool_model::UserName;

/// A job that was seen live: its file, whether its notice is sent in any case, and its user.
#[derive(Clone, Copy)]
pub struct NotedJob {
    pub number: u32,
    pub file: Name,
    pub always: bool,
    pub user: UserName,
}

/// One note of a job.
#[derive(Clone, Copy)]
pub enum Note {
    Noted(NotedJob),
    /// Its notice was sent, or is being sent.
    Sent(u32),
    /// It has no notice.
    Dropped(u32),
}
