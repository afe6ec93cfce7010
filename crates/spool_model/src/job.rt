//! A job.
ghost use Rattle.std.specs.Prelude.{◌≡◌, IfOk};

use crate::UserName;
use host_calls::Bytes;
use std::alloc::{AllocError, Global};

/// A job as it was accepted: its queue, the minute that it is due, its user, and what is to run.
#[derive(Drop)]
pub struct Job {
    pub queue: u8,
    pub minute: u32,
    pub user: UserName,
    pub script: Bytes,
}

impl Job {
    /// The same job once more.
    pub fn copied(&self, alloc: Global) -> Result<Job, AllocError>
        ensures { IfOk result (λ made. made ≡ self.now) }
    {
        Ok(Job {
            queue: self.queue,
            minute: self.minute,
            user: self.user,
            script: Bytes::of(alloc, self.script.as_slice())?,
        })
    }
}
