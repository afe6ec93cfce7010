//! How many jobs a spool directory has of each kind.

/// The number that was drawn last, and how many jobs are pending, run, and are done, by how they were done.
#[derive(Clone, Copy, Debug, PartialEq, Eq)]
pub struct Counts {
    pub last: u32,
    pub pending: u32,
    pub running: u32,
    pub removed: u32,
    /// Without those that were not started.
    pub finished: u32,
    pub not_started: u32,
    pub interrupted: u32,
}
