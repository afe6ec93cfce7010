//! How far a job has come.

/// How far a live job has come.
#[derive(Clone, Copy, Debug, PartialEq, Eq)]
pub enum State {
    Pending,
    /// Its start was noted at this second.
    Running(i64),
}
