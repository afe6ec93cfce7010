//! The children that a host starts, and what it reports of them.
use crate::Bytes;

/// A child that a host started, by the number that the host gave it.
#[derive(Clone, Copy, Debug, PartialEq, Eq)]
pub struct Child {
    pub id: u64,
}

/// How a child ended, or that it was never started.
#[derive(Clone, Copy, Debug, PartialEq, Eq)]
pub enum Ending {
    /// It ended with this exit status.
    Exit(u8),
    /// This signal ended it. 0 stands for one that isn't reported.
    Signal(u8),
    /// It could not be started.
    NotStarted,
}

/// A script that was started: which one, how nice, and whether a child came of it.
#[derive(Drop)]
pub struct Handed {
    pub number: u32,
    pub script: Bytes,
    pub nice: u8,
    pub started: bool,
}

/// A child that was asked whether it has ended, and its answer.
#[derive(Clone, Copy, Debug, PartialEq, Eq)]
pub struct Asked {
    pub child: Child,
    pub answer: Option<Ending>,
}
