//! What is submitted.
ghost use Rattle.host_calls.specs.ClockRange.{IsClockMinute};

use host_calls::Bytes;

/// A submission that passed the checks before the spool is entered: the minute at which its job is due, and its text.
#[derive(Drop)]
pub struct Submission {
    pub minute: u32,
    pub script: Bytes,
    ghost in_calendar: { IsClockMinute minute },
}
