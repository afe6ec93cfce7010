//! The rules of one queue and of one job.
ghost use Rattle.std.specs.Prelude.{◌≡◌, IsTrue, IfSome};
ghost use Rattle.std.specs.Char.{is_ascii_alphabetic};
ghost use Rattle.host_calls.specs.ClockRange.{IsClockSecond};
ghost use Rattle.queue_rules.specs.Queues.{niceness_of, is_due, has_rested, may_start_batch};

use spool_model::Row;

/// The niceness that no job passes.
pub const MAX_NICENESS: u8 = 19;

/// The niceness of the queue's jobs.
pub fn nice_of(queue: u8) -> u8
    requires { IsTrue (is_ascii_alphabetic queue) }
    ensures { result ≡ niceness_of queue }
{
    let position = if queue >= b'a' {
        queue - b'a'
    } else {
        queue - b'A'
    };
    (2 * position).min(MAX_NICENESS)
}

/// Whether the job's minute has begun.
pub fn is_due(row: &Row, now: i64) -> bool
    ensures { result ≡ is_due now row.now }
{
    60 * i64::from(row.minute) <= now
}

/// Whether a batch job may start now: the load is in hundredths, the interval in seconds.
pub fn may_start_batch(
    load: Option<u32>,
    limit: u32,
    last: Option<i64>,
    now: i64,
    interval: u32,
) -> bool
    requires now { IsClockSecond now }
    requires last { IfSome last IsClockSecond }
    ensures { result ≡ may_start_batch load limit last now interval }
{
    let Some(load) = load else {
        return false;
    };
    load < limit && has_rested(last, now, interval)
}

// Whether the last batch start is long ago, or lies in the future.
fn has_rested(last: Option<i64>, now: i64, interval: u32) -> bool
    requires now { IsClockSecond now }
    requires last { IfSome last IsClockSecond }
    ensures { result ≡ has_rested last now interval }
{
    match last {
        None => true,
        Some(last) => now - last >= i64::from(interval) || now < last,
    }
}
