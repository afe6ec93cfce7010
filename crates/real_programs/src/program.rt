//! The programs of the tools.

/// A program. Its words and its caller select what it does.
#[derive(Clone, Copy, Debug, PartialEq, Eq)]
pub enum Program {
    /// Of `at`, `batch`, `atq`, `atrm`, `atd` and `atday`.
    Commands,
    /// Of `at` and `batch`, after which the jobs that are new are noted for mail.
    CommandsThenNoting,
    /// Of atstat.
    Stat,
    /// Sessions of mail.
    Post,
    /// A trim of the notes of mail.
    Trim,
    /// A trim of the notes of mail, and then sessions, unless the trim reports a damage.
    PostAfterTrim,
    /// Sessions of a crontab.
    Cron,
    /// A listing of the next minutes of a crontab, with no spool.
    Next,
    /// Of ataccount.
    Account,
    /// Of atcheck, whose salvage writes into the target.
    Check,
}
