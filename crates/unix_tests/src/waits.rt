//! What a session does while another one holds the lock.
ghost use Rattle.std.specs.Prelude.{◌≡◌};
ghost use Rattle.host_calls.specs.Session.{IsOutside};

use crate::refusing::childless;
use crate::words::{begin, clear, fresh_spool, host_of, host_over, line};
use host_calls::{EnterFault, Host, HostFault};
use std::alloc::Global;
use std::test::Fail;
use std::time::{Clock, Duration};
use unix_host::Waits;

/// What a host is answered that enters a directory, twice.
type Answers = (Result<(), EnterFault>, Result<(), EnterFault>);

// How a session begins, which is left at once.
fn entered<H: Host>(alloc: Global, host: &mut H) -> Result<(), EnterFault>
    requires outside { IsOutside (H.session host.old) }
    ensures outside { IsOutside (H.session host.new) }
{
    host.enter(alloc)?;
    host.leave();
    Ok(())
}

// What a second host of the directory is answered while the first one is in its session, and after that.
fn answers_of_both<F: Host, S: Host>(
    alloc: Global,
    first: &mut F,
    second: &mut S,
) -> Result<Answers, HostFault>
    requires first { IsOutside (F.session first.old) }
    requires second { IsOutside (S.session second.old) }
{
    begin(alloc, first)?;
    let within = entered(alloc, second);
    first.leave();
    let after = entered(alloc, second);
    Ok((within, after))
}

// The same of a second host that comes by this path.
fn answers_beside<F: Host>(
    rt: &HostRuntime,
    first: &mut F,
    path: &str,
) -> Result<Answers, HostFault>
    requires { IsOutside (F.session first.old) }
{
    let mut second = host_over(rt.clone()?, rt.alloc(), path)?;
    let answers = answers_of_both(rt.alloc(), first, &mut second);
    drop(second);
    answers
}

// The same next to a host of this directory, and how long it takes.
fn answers_in_time(rt: &HostRuntime, path: &str, link: &str) -> Result<(Answers, Duration), Fail> {
    let before = rt.monotonic()?;
    let mut first = host_of(rt, path)?;
    let answers = answers_beside(rt, &mut first, link);
    drop(first);
    let waited = rt.monotonic()?.saturating_sub(before);
    Ok((answers?, waited))
}

// A spool and a link to it are one directory, with one lock. It is requested ten times, by the system's clock: this waits
// for nine seconds.
#[test]
fn a_host_is_refused_while_another_holds_the_lock(rt: HostRuntime) -> Result<(), Fail> {
    let path = fresh_spool(&rt, "taken")?;
    let link = format!(in rt.alloc(); "{path}.link")?;
    line(&rt, "ln -s \"$1\" \"$1.link\"", path.as_str())?;
    let seen = answers_in_time(&rt, path.as_str(), link.as_str());
    drop(link);
    let (answers, waited) = seen?;
    assert_eq!(rt; answers, (Err(EnterFault::Taken), Ok(())));
    assert!(rt; waited >= Duration::from_secs(9) && waited < Duration::from_secs(30));
    let beside = line(&rt, "ls -d \"$1\"* | wc -l", path.as_str())?;
    assert_eq!(rt; beside.as_slice(), b"4\n".as_slice());
    drop(beside);
    clear(&rt, path.as_str())
}

// The same where the second host naps, and where no rest takes time.
fn answers_after_naps(rt: &HostRuntime, path: &str) -> Result<Answers, Fail> {
    let mut first = host_of(rt, path)?;
    let mut second = host_over(childless(rt)?, rt.alloc(), path)?.waiting(Waits::Napping);
    let answers = answers_of_both(rt.alloc(), &mut first, &mut second);
    drop(second);
    drop(first);
    Ok(answers?)
}

#[test]
fn naps_end_too(rt: HostRuntime) -> Result<(), Fail> {
    let path = fresh_spool(&rt, "napped")?;
    let answers = answers_after_naps(&rt, path.as_str())?;
    clear(&rt, path.as_str())?;
    assert_eq!(rt; answers, (Err(EnterFault::Taken), Ok(())));
    Ok(())
}

// Who comes while another is in a session finds the directory locked, also after the file next to it was removed. Its own
// file is a new one, so it knows nothing of what is unsynced.
#[test]
fn a_lock_that_was_removed_still_keeps_others_out(rt: HostRuntime) -> Result<(), Fail> {
    let path = fresh_spool(&rt, "unlinked")?;
    let mut first = host_of(&rt, path.as_str())?;
    begin(rt.alloc(), &mut first)?;
    line(&rt, "rm \"$1.lock\"", path.as_str())?;
    let mut second = host_over(childless(&rt)?, rt.alloc(), path.as_str())?;
    let within = entered(rt.alloc(), &mut second);
    first.leave();
    let after = entered(rt.alloc(), &mut second);
    drop(second);
    drop(first);
    clear(&rt, path.as_str())?;
    assert_eq!(rt; (within, after), (Err(EnterFault::Taken), Ok(())));
    Ok(())
}

// Holds the lock of a spool for a quarter of a second, from before the shell ends.
const HELD: &str = "mkdir -p \"$1\"; exec 9>\"$1.lock\"; flock 9; sleep 0.25 >/dev/null 2>&1 &";

// How long a session of a host that waits so for the lock takes to begin.
fn time_to_enter(rt: &HostRuntime, path: &str, waits: Waits) -> Result<Duration, Fail> {
    line(rt, HELD, path)?;
    let before = rt.monotonic()?;
    let mut host = host_of(rt, path)?.waiting(waits);
    let answer = entered(rt.alloc(), &mut host);
    drop(host);
    answer?;
    Ok(rt.monotonic()?.saturating_sub(before))
}

// A lock that is let go soon is had at once, and by one that tries a second later. Where the machine is busy it may take
// as long once, and not ten times.
#[test]
fn a_lock_that_is_let_go_is_had_after_a_nap(rt: HostRuntime) -> Result<(), Fail> {
    let path = fresh_spool(&rt, "let_go")?;
    let mut soonest = Duration::MAX;
    for _ in 0..10 {
        soonest = soonest.min(time_to_enter(&rt, path.as_str(), Waits::Napping)?);
    }
    let asked = time_to_enter(&rt, path.as_str(), Waits::Asking)?;
    clear(&rt, path.as_str())?;
    assert!(rt; soonest < Duration::from_millis(900), "{soonest:?}");
    assert!(rt; asked >= Duration::from_secs(1), "{asked:?}");
    Ok(())
}
