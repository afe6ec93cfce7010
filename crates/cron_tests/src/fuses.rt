//! A session that is cut off at each of its calls.
ghost use Rattle.host_calls.specs.Session.{IsOutside};
ghost use Rattle.memory_host.specs.Host.{memory_session};

use crate::callers::ann;
use crate::outside::{Answered, FIRST, NOW, SECOND, has, run, sessions_of, spool};
use cron_session::mark_name;
use host_calls::Name;
use memory_host::{MemoryHost, Plan};
use std::alloc::{AllocError, Global};
use std::test::Fail;

// Two entries that are due in each minute.
const TWO: &[u8] = b"* * * * * one\n* * * * * two\n";

const ONE: &[&str] = &["atcron", "-f", "crontab", "--turns", "1"];

// How far a session came: nothing, the mark, and then the number of each job and the job.
fn how_far(host: &MemoryHost) -> Result<u32, Fail> {
    let sequence = Name::of(b".SEQ").ok_or("a name")?;
    let last = host.reading(&sequence).unwrap_or(b"00000000\n");
    let is_marked = host.reading(&mark_name()).is_some();
    let jobs = (has(host, FIRST), has(host, SECOND));
    let far = match (is_marked, last, jobs) {
        (false, b"00000000\n", (false, false)) => 0,
        (true, b"00000000\n", (false, false)) => 1,
        (true, b"00000001\n", (false, false)) => 2,
        (true, b"00000001\n", (true, false)) => 3,
        (true, b"00000002\n", (true, false)) => 4,
        (true, b"00000002\n", (true, true)) => 5,
        _ => return Err(Fail::from("another state")),
    };
    Ok(far)
}

// A plan by which no call gets through from the fuse on.
fn fused(alloc: Global, fuse: u64) -> Plan {
    let mut plan = Plan::quiet(alloc);
    plan.fuse = Some(fuse);
    plan
}

// A session through which no call gets from the fuse on, and a reboot with the pick: whether it was done, and how far it
// came. A further session in its minute adds nothing, unless the minute was not marked.
fn cut_off(alloc: Global, fuse: u64, pick: u64) -> Result<(bool, u32), Fail> {
    let mut host = spool(alloc, &[], fused(alloc, fuse))?;
    let came = came_on(alloc, pick, &mut host);
    drop(host);
    came
}

fn came_on(alloc: Global, pick: u64, host: &mut MemoryHost) -> Result<(bool, u32), Fail>
    requires { IsOutside (memory_session host.old) }
{
    let is_done = ends_well(alloc, host)?;
    host.reboot(alloc, pick, None)?;
    let far = how_far(host)?;
    let is_done_again = ends_well(alloc, host)?;
    let same = how_far(host)?;
    let is_right = is_done_again && (same == far || far == 0 && same == 5);
    is_right
        .then_some(())
        .ok_or("another session added something else")?;
    Ok((is_done, far))
}

// Whether a session of the two entries was done.
fn ends_well(alloc: Global, host: &mut MemoryHost) -> Result<bool, Fail>
    requires { IsOutside (memory_session host.old) }
    ensures { IsOutside (memory_session host.new) }
{
    let answered = session(alloc, NOW, host)?;
    is_done(&answered)
}

// A session of the two entries.
fn session(alloc: Global, now: i64, host: &mut MemoryHost) -> Result<Answered, AllocError>
    requires { IsOutside (memory_session host.old) }
    ensures { IsOutside (memory_session host.new) }
{
    let caller = ann(alloc)?;
    run(alloc, &sessions_of(ONE, TWO, &[now, now]), &caller, host)
}

// The program makes all of its sessions, and says of one that was cut off that it was.
fn is_done(answered: &Answered) -> Result<bool, Fail> {
    if is_done_so(answered) {
        return Ok(true);
    }
    let is_said = answered.code == 0
        && answered.err.content() == b"atcron: spool fault\n".as_slice();
    is_said.then_some(()).ok_or("another end")?;
    Ok(false)
}

fn is_done_so(answered: &Answered) -> bool {
    answered.code == 0 && answered.err.content().is_empty()
}

#[test]
fn a_session_is_cut_off_at_each_call(rt: HostRuntime) -> Result<(), Fail> {
    let mut most = 0;
    for fuse in 1..60 {
        for &pick in &[0, 1, u64::MAX] {
            let (is_done, far) = cut_off(rt.alloc(), fuse, pick)?;
            assert!(rt; !is_done || far == 5, "fuse {fuse}, pick {pick}");
            assert!(rt; is_done || fuse < 59, "fuse {fuse}, pick {pick}");
            most = most.max(far);
        }
    }
    assert_eq!(rt; most, 5);
    Ok(())
}

// A session through which no call gets from the fuse on, a reboot, and a session of the next minute: how far the first one
// came decides under which numbers the next one submits its jobs.
fn next_minute(alloc: Global, fuse: u64) -> Result<bool, Fail> {
    let mut host = spool(alloc, &[], fused(alloc, fuse))?;
    let numbered = numbers_on(alloc, &mut host);
    drop(host);
    numbered
}

fn numbers_on(alloc: Global, host: &mut MemoryHost) -> Result<bool, Fail>
    requires { IsOutside (memory_session host.old) }
{
    let _first = session(alloc, NOW, host)?;
    host.reboot(alloc, 1, None)?;
    let drawn = match how_far(host)? {
        0 | 1 => 0,
        2 | 3 => 1,
        _ => 2,
    };
    let next = session(alloc, NOW + 60, host)?;
    let one = format!(in alloc; "a{:08x}01b9ebff", drawn + 1)?;
    let two = format!(in alloc; "a{:08x}01b9ebff", drawn + 2)?;
    Ok(next.code == 0 && has(host, one.as_bytes()) && has(host, two.as_bytes()))
}

// After a session that was cut off the next minute numbers on.
#[test]
fn the_next_minute_numbers_on(rt: HostRuntime) -> Result<(), Fail> {
    for fuse in 1..60 {
        assert!(rt; next_minute(rt.alloc(), fuse)?, "fuse {fuse}");
    }
    Ok(())
}
