//! How many jobs that are done are too many.
ghost use Rattle.std.specs.Prelude.{◌≡◌, IfOk, map};
ghost use Rattle.spool_model.specs.Lists.{surplus};

use crate::Store;
use spool_model::{Decided, MAX_DONE};
use std::alloc::{AllocError, Global};

impl Store {
    /// The lowest of the numbers of jobs that are done, as many as are too many.
    pub fn surplus(&self, alloc: Global) -> Result<Vec<u32>, AllocError>
        ensures { IfOk result (λ numbers. numbers.items ≡ surplus self.now.table) }
    {
        let decided = self.decided();
        let count = decided.len().saturating_sub(MAX_DONE);
        numbers_of_decided(alloc, &decided[..count])
    }
}

fn numbers_of_decided(alloc: Global, decided: &[Decided]) -> Result<Vec<u32>, AllocError>
    ensures { IfOk result (λ numbers. numbers.items ≡ map (λ done. done.number) decided.now) }
{
    decided.iter().map(|done| done.number).collect(alloc)
}
