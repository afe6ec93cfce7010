//! A session of a crontab.
ghost use Rattle.std.specs.Prelude.{◌≡◌, ◌≤◌, ◌<◌, All, None, length};
ghost use Rattle.civil_minute.specs.Zone.{IsReadable};
ghost use Rattle.host_calls.specs.ClockRange.{IsClockSecond};
ghost use Rattle.cron_text.specs.declared.crontab.TheConstants.{MAX_CRONTAB};
ghost use Rattle.host_calls.specs.Session.{IsOutside};
ghost use Rattle.job_script.specs.Check.{first_fault};
ghost use Rattle.cron_session.specs.SessionOutcome.{CronsTo};
ghost use Rattle.cron_session.specs.inside.SessionWork.{cron_end_after, end_of_cron_session};

use crate::work::cron_session_body;
use crate::{CronEnd, CronReport};
use at_words::Numbers;
use civil_minute::Zone;
use cron_text::Entries;
use host_calls::{EnterFault, Host, in_session, minute_at};
use job_script::{Context, checks_are_tests};
use spool_store::StoreFault;
use std::alloc::Global;

/// The queue of a crontab's jobs.
pub const CRON_QUEUE: u8 = b'a';

/// Makes one session of a crontab: submits a job of each entry that is due at the minute of the second, unless the mark of
/// the spool is of this minute or a later one. The mark is set first, so that no minute is had twice.
pub fn cron_session<H: Host>(
    alloc: Global,
    host: &mut H,
    context: &Context,
    zone: &Zone,
    entries: &Entries,
    now: i64,
) -> CronReport
    requires outside { IsOutside (H.session host.old) }
    requires context { first_fault context.now ≡ None }
    requires umask { context.now.umask < 512 }
    requires zone { IsReadable zone.now }
    requires now { IsClockSecond now }
    requires commands { All (λ entry. length entry.command ≤ MAX_CRONTAB) entries.now }
    ensures { CronsTo H.tells H.alone
        (record { context = context.now; zone = zone.now; entries = entries.now; now = now })
        (record { session = H.session host.old; world = H.world host.old })
        (record { session = H.session host.new; world = H.world host.new }) result.end result.numbers }
{
    checks_are_tests(context);
    let entries = entries.as_slice();
    let minute = minute_at(now);
    let mut numbers = Vec::new(alloc);
    let worked = in_session(
        alloc,
        host,
        &mut |host| cron_session_body(alloc, host, context, zone, entries, minute, &mut numbers),
    );
    CronReport {
        end: end_of(worked),
        numbers: Numbers::of_distinct(numbers),
    }
}

// The end of a session, by what came of it.
fn end_of(worked: Result<Result<(), StoreFault>, EnterFault>) -> CronEnd
    ensures { result ≡ end_of_cron_session worked }
{
    match worked {
        Ok(done) => cron_end_of_work(done),
        Err(EnterFault::Taken) => CronEnd::Busy,
        Err(EnterFault::Failed) => CronEnd::FileFault,
        Err(EnterFault::Memory) => CronEnd::Memory,
    }
}

// The end of a session, by what came of its work.
fn cron_end_of_work(worked: Result<(), StoreFault>) -> CronEnd
    ensures { result ≡ cron_end_after worked }
{
    match worked {
        Ok(()) => CronEnd::Done,
        Err(StoreFault::FileFault) => CronEnd::FileFault,
        Err(StoreFault::Damaged(damage)) => CronEnd::Damaged(damage),
        Err(StoreFault::QueueFull) => CronEnd::QueueFull,
        Err(StoreFault::NumbersUsedUp) => CronEnd::NumbersUsedUp,
        Err(StoreFault::Memory) => CronEnd::Memory,
    }
}
