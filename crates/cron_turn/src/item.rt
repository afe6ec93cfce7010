//! What comes of a session's end: the rest after it, and the cause that is said of it.
ghost use Rattle.std.specs.Prelude.{◌≡◌};
ghost use Rattle.host_calls.specs.ClockRange.{IsClockSecond};
ghost use Rattle.cron_turn.specs.Items.{cause_of_cron_end, rest_after_session};

use cron_session::CronEnd;
use host_calls::{LONGEST_REST, SHORT_REST};
use listing_text::{Cause, Refusal};

// The seconds of the rest after a session.
pub(crate) fn rest_after_session(end: &CronEnd, now: i64) -> u32
    requires { IsClockSecond now }
    ensures { result ≡ rest_after_session end.now now }
{
    match end {
        CronEnd::Done => LONGEST_REST - (now.unsigned_abs() % u64::from(LONGEST_REST)) as u32,
        CronEnd::Busy => SHORT_REST,
        CronEnd::FileFault => SHORT_REST,
        CronEnd::Damaged(_) => SHORT_REST,
        CronEnd::QueueFull => SHORT_REST,
        CronEnd::NumbersUsedUp => SHORT_REST,
        CronEnd::Memory => SHORT_REST,
    }
}

// The end of a session, as the cause of a line.
pub(crate) fn cause_of_cron_end(end: &CronEnd) -> Cause
    ensures { result ≡ cause_of_cron_end end.now }
{
    match end {
        CronEnd::Done => Cause::Done,
        CronEnd::Busy => Cause::Busy,
        CronEnd::FileFault => Cause::FileFault,
        CronEnd::Damaged(damage) => Cause::Damaged(*damage),
        CronEnd::QueueFull => Cause::Refused(Refusal::QueueFull),
        CronEnd::NumbersUsedUp => Cause::Refused(Refusal::NumbersUsedUp),
        CronEnd::Memory => Cause::Memory,
    }
}
