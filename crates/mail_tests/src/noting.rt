//! Notings of new jobs, over spools in memory.
ghost use Rattle.host_calls.specs.Session.{IsOutside};
ghost use Rattle.memory_host.specs.Host.{memory_session};

use crate::directories::notes_now;
use crate::trims::{BEFORE, LEFT_OVER, five_jobs};
use at_mail::{note_new_jobs, notice_name};
use host_calls::TurnEnd;
use memory_host::{MemoryHost, Plan};
use std::alloc::{AllocError, Global};
use std::process::Abort;
use std::test::Fail;

// The notes of job 1, and those of the two jobs that live after them.
const OF_ONE: &[u8] = b"N 00000001 a0000000101b968a0 1 ann\nS 00000001\n";

const OF_THREE: &[u8] =
    b"N 00000001 a0000000101b968a0 1 ann\nS 00000001\nN 00000004 a0000000401b968a0 1 ann\nN 00000005 a0000000501b968a0 1 ann\n";

const OF_LIVE: &[u8] = b"N 00000004 a0000000401b968a0 1 ann\nN 00000005 a0000000501b968a0 1 ann\n";

// Whether a noting is done.
fn notes_jobs(alloc: Global, host: &mut MemoryHost) -> bool
    requires { IsOutside (memory_session host.old) }
    ensures { IsOutside (memory_session host.new) }
{
    matches!(note_new_jobs(alloc, host), TurnEnd::Done)
}

// Whether nothing was sent, and the notice of a session of mail stays.
fn is_alone(host: &MemoryHost) -> bool {
    host.handed().len() == 0 && host.reading(&notice_name(7)) == Some(LEFT_OVER)
}

fn noting_leaves(
    rt: &impl Abort,
    alloc: Global,
    notes: &[u8],
    left: &[u8],
) -> Result<bool, AllocError> {
    let mut host = five_jobs(rt, alloc, notes, Plan::quiet(alloc))?;
    let is_done = notes_jobs(alloc, &mut host);
    let is_left = notes_now(&host) == Some(left) && is_alone(&host);
    drop(host);
    Ok(is_done && is_left)
}

#[test]
fn jobs_without_a_note_get_one(rt: HostRuntime) -> Result<(), Fail> {
    let cases: [(&[u8], &[u8]); 4] = [
        (OF_ONE, OF_THREE),
        (OF_THREE, OF_THREE),
        (b"", OF_LIVE),
        (BEFORE, BEFORE),
    ];
    for (notes, left) in cases {
        let is_left = noting_leaves(&rt, rt.alloc(), notes, left)?;
        assert!(rt; is_left, "{notes:?}");
    }
    Ok(())
}

// Whether a noting that a call of this number and each later one cut off leaves the notes of before or those of after it, and
// sends nothing.
fn is_cut_off(rt: &impl Abort, alloc: Global, fuse: u64, pick: u64) -> Result<bool, AllocError> {
    let mut plan = Plan::quiet(alloc);
    plan.fuse = Some(fuse);
    let mut host = five_jobs(rt, alloc, OF_ONE, plan)?;
    let was_done = notes_jobs(alloc, &mut host);
    let none_sent = host.handed().len() == 0;
    host.reboot(alloc, pick, None)?;
    let is_noted = notes_now(&host) == Some(OF_THREE);
    let is_either = is_noted || (!was_done && notes_now(&host) == Some(OF_ONE));
    let is_right = is_either && none_sent && is_alone(&host);
    drop(host);
    Ok(is_right)
}

#[test]
fn a_noting_is_cut_off_at_each_call(rt: HostRuntime) -> Result<(), Fail> {
    for fuse in 0..30 {
        for &pick in &[0, 1, u64::MAX] {
            let is_right = is_cut_off(&rt, rt.alloc(), fuse, pick)?;
            assert!(rt; is_right, "fuse {fuse}, pick {pick}");
        }
    }
    Ok(())
}

#[test]
fn a_damaged_note_stays(rt: HostRuntime) -> Result<(), Fail> {
    let alloc = rt.alloc();
    let mut host = five_jobs(&rt, alloc, b"S 00000001\n", Plan::quiet(alloc))?;
    let end = note_new_jobs(alloc, &mut host);
    assert!(rt; matches!(end, TurnEnd::Damaged(_)));
    assert_eq!(rt; notes_now(&host), Some(b"S 00000001\n".as_slice()));
    drop(host);
    Ok(())
}
