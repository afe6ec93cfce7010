//! The order of the files of a session: a notice is placed before its note, and the notes of what is new are one change.
ghost use Rattle.std.specs.Prelude.{IfOk};
ghost use Rattle.host_calls.specs.Session.{IsOutside};
ghost use Rattle.memory_host.specs.Host.{memory_session};

use crate::directories::{JOB, NOTED, notes_now, spool};
use crate::program::is_done;
use at_mail::notice_name;
use memory_host::{Failing, MemoryHost, Part, Plan};
use std::alloc::{AllocError, Global};
use std::process::Abort;
use std::test::Fail;

// The marks of job 1, which has ended.
const ENDED: &[u8] = b"+S00000001a-000000000067748580.\n+E00000001-x000000000000000000.\n";

// The spool of job 1, whose notice is due.
fn one_end(rt: &impl Abort, alloc: Global, plan: Plan) -> Result<MemoryHost, AllocError>
    ensures { IfOk result (λ host. IsOutside (memory_session host)) }
{
    spool(rt, alloc, 1, &[(b".JRN", ENDED), (b".MAIL", NOTED)], plan)
}

// How a session ended of which the call of this number alone fails, and whether what it left is right.
#[derive(Clone, Copy)]
struct Ended {
    was_done: bool,
    is_right: bool,
}

// Such a session, and another, of which the call fails where the first has fewer calls. Where the note is there, so is the
// notice; where it is not, the second session hands the notice over.
fn with_a_failing_call(
    rt: &impl Abort,
    alloc: Global,
    call: u64,
    part: Part,
) -> Result<Ended, Fail> {
    let mut plan = Plan::quiet(alloc);
    plan.failing.push(alloc, Failing { call, part })?;
    let mut host = one_end(rt, alloc, plan)?;
    let ended = two_sessions(alloc, &mut host);
    drop(host);
    Ok(ended?)
}

fn two_sessions(alloc: Global, host: &mut MemoryHost) -> Result<Ended, AllocError>
    requires { IsOutside (memory_session host.old) }
{
    let was_done = is_done(alloc, host)?;
    let is_noted = notes_now(host) != Some(NOTED);
    let is_there = host.reading(&notice_name(1)).is_some();
    let handed = host.handed().len();
    let next = is_done(alloc, host)?;
    let is_right = if is_noted {
        is_there && host.handed().len() == handed
    } else {
        handed == 0 && host.handed().len() == 1
    };
    Ok(Ended {
        was_done,
        is_right: is_right && (was_done || next),
    })
}

#[test]
fn a_notice_that_is_not_placed_is_sent_by_the_next_session(rt: HostRuntime) -> Result<(), Fail> {
    let mut failed = 0;
    for call in 0..40 {
        for &part in &[Part::Nothing, Part::All] {
            let ended = with_a_failing_call(&rt, rt.alloc(), call, part)?;
            assert!(rt; ended.is_right, "call {call}");
            if !ended.was_done {
                failed = u64::saturating_add(failed, 1);
            }
        }
    }
    assert!(rt; failed >= 20);
    Ok(())
}

// The notes of two jobs that live.
const BOTH: &[u8] = b"N 00000001 a0000000101b968a0 1 ann\nN 00000002 a0000000201b968a0 1 ann\n";

// Whether a session over two jobs that are new, cut off at the call, and a reboot with the pick leave the notes of both, or
// of none.
fn is_one_change(rt: &impl Abort, alloc: Global, fuse: u64, pick: u64) -> Result<bool, Fail> {
    let others = [
        (b"a0000000101b968a0".as_slice(), JOB),
        (b"a0000000201b968a0".as_slice(), JOB),
    ];
    let mut plan = Plan::quiet(alloc);
    plan.fuse = Some(fuse);
    let mut host = spool(rt, alloc, 2, &others, plan)?;
    let is_one = is_one_on(alloc, pick, &mut host);
    drop(host);
    Ok(is_one?)
}

fn is_one_on(alloc: Global, pick: u64, host: &mut MemoryHost) -> Result<bool, AllocError>
    requires { IsOutside (memory_session host.old) }
{
    let was_done = is_done(alloc, host)?;
    host.reboot(alloc, pick, None)?;
    let notes = notes_now(host);
    Ok(notes == Some(BOTH) || (!was_done && notes.is_none()))
}

#[test]
fn the_notes_of_what_is_new_are_one_change(rt: HostRuntime) -> Result<(), Fail> {
    for fuse in 1..30 {
        for &pick in &[0, 1, u64::MAX] {
            let is_one = is_one_change(&rt, rt.alloc(), fuse, pick)?;
            assert!(rt; is_one, "fuse {fuse}, pick {pick}");
        }
    }
    Ok(())
}
