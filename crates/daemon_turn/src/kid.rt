//! A child of the daemon.
use host_calls::Child;

/// The child that was started for the job of this number.
#[derive(Clone, Copy, Debug, PartialEq, Eq)]
pub struct Kid {
    pub number: u32,
    pub child: Child,
}
