//! A session that a crash cuts off at each of its calls: no notice is sent twice.
ghost use Rattle.std.specs.Prelude.{IfOk};
ghost use Rattle.host_calls.specs.Session.{IsOutside};
ghost use Rattle.memory_host.specs.Host.{memory_session};

use crate::directories::{notes_now, spool};
use crate::program::is_done;
use memory_host::{MemoryHost, Plan};
use std::alloc::{AllocError, Global};
use std::process::Abort;
use std::test::Fail;

// The marks of two jobs that have ended, and their notes.
const ENDS: &[u8] =
    b"+S00000001a-000000000067748580.\n+S00000002a-000000000067748580.\n+E00000001-x000000000000000000.\n+E00000002-x000000000000000000.\n";

const BOTH: &[u8] = b"N 00000001 a0000000101b968a0 1 ann\nN 00000002 a0000000201b968a0 1 ann\n";

const CLOSED: &[u8] =
    b"N 00000001 a0000000101b968a0 1 ann\nN 00000002 a0000000201b968a0 1 ann\nS 00000001\nS 00000002\n";

// The spool of two jobs that have ended, with a file that is left over.
fn two_ends(rt: &impl Abort, alloc: Global, plan: Plan) -> Result<MemoryHost, AllocError>
    ensures { IfOk result (λ host. IsOutside (memory_session host)) }
{
    let others = [
        (b".JRN".as_slice(), ENDS),
        (b".MAIL".as_slice(), BOTH),
        (b"mail.00000007".as_slice(), b"left over".as_slice()),
    ];
    spool(rt, alloc, 2, &others, plan)
}

// How many of the scripts that were sent are of the number.
fn count_of(host: &MemoryHost, number: u32) -> u64 {
    let mut count = 0;
    for handed in host.handed() {
        if handed.number == number {
            count = u64::saturating_add(count, 1);
        }
    }
    count
}

// A plan by which no call gets through from the fuse on.
fn fused(alloc: Global, fuse: u64) -> Plan {
    let mut plan = Plan::quiet(alloc);
    plan.fuse = Some(fuse);
    plan
}

// Whether a session through which no call gets from the fuse on, a reboot with the pick, and two more sessions hand each
// notice over at most once.
fn is_sent_once(rt: &impl Abort, alloc: Global, fuse: u64, pick: u64) -> Result<bool, AllocError> {
    let mut host = two_ends(rt, alloc, fused(alloc, fuse))?;
    let is_sent = is_sent_on(alloc, pick, &mut host);
    drop(host);
    is_sent
}

fn is_sent_on(alloc: Global, pick: u64, host: &mut MemoryHost) -> Result<bool, AllocError>
    requires { IsOutside (memory_session host.old) }
{
    let first = is_done(alloc, host)?;
    host.reboot(alloc, pick, None)?;
    let second = is_done(alloc, host)?;
    let third = is_done(alloc, host)?;
    let is_closed = notes_now(host) == Some(CLOSED);
    Ok(second && third && is_closed && is_fit(first, count_of(host, 1), count_of(host, 2)))
}

// Whether the notices were sent so often as they may be: once each, where the first session was done.
fn is_fit(was_done: bool, first: u64, second: u64) -> bool {
    first <= 1 && second <= 1 && (!was_done || (first == 1 && second == 1))
}

#[test]
fn no_notice_is_handed_over_twice(rt: HostRuntime) -> Result<(), Fail> {
    for fuse in 1..60 {
        for &pick in &[0, 1, u64::MAX] {
            let is_sent = is_sent_once(&rt, rt.alloc(), fuse, pick)?;
            assert!(rt; is_sent, "fuse {fuse}, pick {pick}");
        }
    }
    Ok(())
}
