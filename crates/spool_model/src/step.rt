//! A step of the job table.
use crate::Job;
use host_calls::Ending;

/// The smallest change of the job table: a crash falls between two steps, never within one.
#[derive(Drop)]
pub enum Step {
    /// The next number is drawn. It is never drawn again.
    Draw,
    /// The job is accepted under the number that was drawn.
    Accept(u32, Job),
    /// The pending job is removed.
    Remove(u32),
    /// The pending job is started at this second.
    Start(u32, i64),
    /// The running job has ended so.
    End(u32, Ending),
    /// The running job is given up.
    Interrupt(u32),
    /// The fate of a done job is no longer kept.
    Forget(u32),
}
