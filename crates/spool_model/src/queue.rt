//! Batch queues.
ghost use Rattle.std.specs.Prelude.{◌≡◌};
ghost use Rattle.spool_model.specs.JobTable.{is_batch_queue};

/// Whether it is a batch queue: `b`, or one of `A` to `Z`.
pub fn is_batch(queue: u8) -> bool
    ensures { result ≡ is_batch_queue queue }
{
    queue == b'b' || queue.is_ascii_uppercase()
}
