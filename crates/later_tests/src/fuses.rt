//! Days in which the machine goes down at each call of a session.
ghost use Rattle.std.specs.Prelude.{IfOk};
ghost use Rattle.host_calls.specs.Session.{IsOutside};
ghost use Rattle.memory_host.specs.Host.{memory_session};

use crate::events::{FIRST, Step, events_of, fused, spool};
use crate::told::{day_on, told};
use memory_host::{MemoryHost, Plan};
use std::alloc::{AllocError, Global};
use std::process::Abort;
use std::test::Fail;

// The last number, the marks of a job that has ended, and its note.
const NUMBER: &[u8] = b"00000001\n";

const ENDED: &[u8] = b"+S00000001a-000000000067748580.\n+E00000001-x000000000000000000.\n";

const NOTED: &[u8] = b"N 00000001 a0000000101b968a0 1 ann\n";

// A spool with the note of a job that has ended.
fn one_end(rt: &impl Abort, alloc: Global, plan: Plan) -> Result<MemoryHost, AllocError>
    ensures { IfOk result (λ host. IsOutside (memory_session host)) }
{
    let files = [
        (b".SEQ".as_slice(), NUMBER),
        (b".JRN".as_slice(), ENDED),
        (b".MAIL".as_slice(), NOTED),
    ];
    spool(rt, alloc, &files, plan)
}

// Of each notice that was sent, whether a child came.
fn children_of(alloc: Global, host: &MemoryHost) -> Result<Vec<bool>, AllocError> {
    let mut all = Vec::new(alloc);
    for handed in host.handed() {
        all.push(handed.started)?;
    }
    Ok(all)
}

// Of each notice that was sent in such a day, whether a child came.
fn handed_in_day(rt: &impl Abort, alloc: Global, fuse: u64, pick: u64) -> Result<Vec<bool>, Fail> {
    let mut host = one_end(rt, alloc, fused(alloc, fuse))?;
    let made = make_posts(rt, alloc, pick, &mut host);
    let children = children_of(alloc, &host);
    drop(host);
    made?;
    Ok(children?)
}

fn make_posts(rt: &impl Abort, alloc: Global, pick: u64, host: &mut MemoryHost) -> Result<(), Fail>
    requires { IsOutside (memory_session host.old) }
{
    // a session of mail, a crash, and two sessions more
    let steps = [Step::Post, Step::Reboot(pick, None), Step::Post, Step::Post];
    let events = events_of(rt, alloc, &steps)?;
    let _report = day_on(rt, alloc, events.as_slice(), host)?;
    Ok(())
}

// Where the call that fails is the start of the notice, no later session sends it.
#[test]
fn a_notice_whose_start_failed(rt: HostRuntime) -> Result<(), Fail> {
    let alloc = rt.alloc();
    let mut failed: u64 = 0;
    for fuse in 0..60 {
        for &pick in &[0, 1, u64::MAX] {
            let children = handed_in_day(&rt, alloc, fuse, pick)?;
            assert!(rt; children.as_slice().len() <= 1, "fuse {fuse}, pick {pick}");
            if children.as_slice() == [false].as_slice() {
                failed = failed.saturating_add(1);
            }
            drop(children);
        }
    }
    assert_eq!(rt; failed, 3);
    Ok(())
}

// What a day tells with a session of a crontab, a crash, two sessions more of its minute, and one of the next.
fn told_of_crons(rt: &impl Abort, alloc: Global, fuse: u64, pick: u64) -> Result<String, Fail> {
    let mut host = spool(rt, alloc, &[], fused(alloc, fuse))?;
    let lines = tell_crons(rt, alloc, pick, &mut host);
    drop(host);
    lines
}

fn tell_crons(
    rt: &impl Abort,
    alloc: Global,
    pick: u64,
    host: &mut MemoryHost,
) -> Result<String, Fail>
    requires { IsOutside (memory_session host.old) }
{
    let steps = [
        Step::Cron(FIRST),
        Step::Reboot(pick, None),
        Step::Cron(FIRST + 1),
        Step::Cron(FIRST + 59),
        Step::Cron(FIRST + 60),
    ];
    let events = events_of(rt, alloc, &steps)?;
    let lines = told(rt, alloc, events.as_slice(), host)?;
    drop(events);
    Ok(lines)
}

// What a day may tell: the minute is had by the first session, whatever became of its job, or by the second.
fn is_right(lines: &str) -> bool {
    matches!(
        lines,
        "cron done 1\nrebooted\ncron done\ncron done\ncron done 2\n"
            | "cron fault\nrebooted\ncron done\ncron done\ncron done 1\n"
            | "cron fault\nrebooted\ncron done\ncron done\ncron done 2\n"
            | "cron fault\nrebooted\ncron done 1\ncron done\ncron done 2\n"
    )
}

#[test]
fn no_minute_is_had_twice_in_a_day(rt: HostRuntime) -> Result<(), Fail> {
    for fuse in 0..60 {
        for &pick in &[0, 1, u64::MAX] {
            let lines = told_of_crons(&rt, rt.alloc(), fuse, pick)?;
            assert!(rt; is_right(lines.as_str()), "fuse {fuse}, pick {pick}");
            drop(lines);
        }
    }
    Ok(())
}
