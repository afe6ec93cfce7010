//! A mark of a minute that has not come yet: until then atcron submits nothing.
ghost use Rattle.std.specs.Prelude.{◌≡◌};
ghost use Rattle.launcher.specs.Marks.{minutes_ahead};
ghost use Rattle.system_calls.specs.Calls.{Continues};

use caller_rules::path_within;
use cron_session::minute_in;
use std::alloc::{AllocError, Global};
use system_calls::{FileRead, System};

// A mark is shorter.
const LONGEST_MARK: u64 = 64;

/// Warns where the mark of the spool is ahead of the clock.
pub fn warn_of_mark<S: System>(system: &mut S, alloc: Global, spool: &str) -> Result<(), AllocError>
    ensures { Continues (S.trace system.old) (S.trace system.new) }
{
    let path = path_within(alloc, spool, ".CRON")?;
    match minutes_of_mark(system, path.as_str()) {
        0 => Ok(()),
        ahead => warn(system, alloc, path.as_str(), ahead),
    }
}

fn warn<S: System>(system: &mut S, alloc: Global, path: &str, ahead: u64) -> Result<(), AllocError>
    ensures { Continues (S.trace system.old) (S.trace system.new) }
{
    let line = format!(in alloc;
        "atcron: {path} is {ahead} minutes ahead of the clock, and atcron submits nothing until then\n"
    )?;
    system.write_error(line.as_str());
    Ok(())
}

// By how many minutes the mark of this path is ahead of the clock; 0 where there is none.
fn minutes_of_mark<S: System>(system: &mut S, path: &str) -> u64
    ensures { Continues (S.trace system.old) (S.trace system.new) }
{
    let FileRead::Whole(mark) = system.read_file(path, LONGEST_MARK) else {
        return 0;
    };
    match (minute_in(mark.as_slice()), system.seconds()) {
        (Ok(mark), Some(now)) => minutes_ahead(u64::from(mark), now),
        _ => 0,
    }
}

// By how many minutes a mark is ahead of a second.
fn minutes_ahead(mark: u64, second: u64) -> u64
    ensures { result ≡ minutes_ahead mark second }
{
    mark.saturating_sub(second / 60)
}
