//! What a session reports.
use at_words::Numbers;
use host_calls::Damage;

/// How a session ended.
#[derive(Clone, Copy)]
pub enum CronEnd {
    /// The minute was marked already, or all of its jobs were submitted.
    Done,
    /// Another program holds the lock.
    Busy,
    /// A call on the spool directory failed.
    FileFault,
    /// The store is damaged, or the mark.
    Damaged(Damage),
    /// There is no room for all jobs that are due.
    QueueFull,
    /// There are fewer numbers left than jobs that are due.
    NumbersUsedUp,
    Memory,
}

/// How a session ended, and the numbers of the jobs that it submitted, in order.
#[derive(Drop)]
pub struct CronReport {
    pub end: CronEnd,
    pub numbers: Numbers,
}
