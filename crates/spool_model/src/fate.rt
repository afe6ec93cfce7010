//! What became of a job.
use host_calls::Ending;

/// What became of a job that is done.
#[derive(Clone, Copy, Debug, PartialEq, Eq)]
pub enum Fate {
    /// Its user removed it before it started.
    Removed,
    /// It was started, and ended so.
    Finished(Ending),
    /// It was started, and nobody knows how it ended.
    Interrupted,
}
