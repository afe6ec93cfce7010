//! One job in a line.
ghost use Rattle.std.specs.Prelude.{◌≡◌};
ghost use Rattle.queue_rules.specs.Dues.{due_of_row, is_due_before, is_due_at, is_waiting_batch, is_waiting_job};

use spool_model::{Row, State, is_batch};

/// When a pending job is due, and its number.
#[derive(Clone, Copy, Debug, PartialEq, Eq)]
pub struct Due {
    pub minute: u32,
    pub number: u32,
}

impl Due {
    // The due minute and the number of a row.
    pub(crate) fn of(row: &Row) -> Due
        ensures { result ≡ due_of_row row.now }
    {
        Due {
            minute: row.minute,
            number: row.number,
        }
    }

    // Whether it comes before the other.
    pub(crate) fn is_before(&self, other: &Due) -> bool
        ensures { result ≡ is_due_before self.now other.now }
    {
        self.minute < other.minute || (self.minute == other.minute && self.number < other.number)
    }

    // Whether its minute has begun.
    pub(crate) fn is_due_at(&self, now: i64) -> bool
        ensures { result ≡ is_due_at now self.now }
    {
        60 * i64::from(self.minute) <= now
    }
}

// Whether the job waits outside the batch queues.
pub(crate) fn is_waiting_job(row: &Row) -> bool
    ensures { result ≡ is_waiting_job row.now }
{
    row.state == State::Pending && !is_batch(row.queue)
}

// Whether the job waits in a batch queue.
pub(crate) fn is_waiting_batch(row: &Row) -> bool
    ensures { result ≡ is_waiting_batch row.now }
{
    row.state == State::Pending && is_batch(row.queue)
}
