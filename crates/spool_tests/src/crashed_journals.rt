//! The journal after a crash at each host call of a compaction, with several picks of what survived.
ghost use Rattle.std.specs.Prelude.{IfOk};
ghost use Rattle.host_calls.specs.Session.{IsOutside};
ghost use Rattle.memory_host.specs.Host.{memory_session};

use crate::journal_calls::compact;
use host_calls::{Host, Name};
use memory_host::{Files, MemoryHost, Plan};
use start_journal::{Journal, Mark};
use std::alloc::{AllocError, Global};
use std::test::Fail;

const PICKS: [u64; 4] = [0, 1, 255, u64::MAX];

// A journal of one job that was removed, two batch starts and a free slot.
const JOURNAL: &[u8] =
    b"+R00000001--000000000000000000.\n+B00000000--000000000000000005.\n+B00000000--000000000000000007.\n-..............................\n";

// A directory with a journal, where no call gets through from the fuse on.
fn spool(alloc: Global, fuse: u64) -> Result<MemoryHost, AllocError>
    ensures { IfOk result (λ host. IsOutside (memory_session host)) }
{
    let mut files = Files::new(alloc);
    if let Some(name) = Name::of(b".JRN") {
        files.put(alloc, name, JOURNAL)?;
    }
    let mut plan = Plan::quiet(alloc);
    plan.fuse = Some(fuse);
    MemoryHost::make(alloc, files, plan)
}

// Whether a compaction is done that stops at this call, and the journal after a reboot of this pick.
fn stopped(alloc: Global, fuse: u64, pick: u64) -> Result<(bool, Journal), Fail> {
    let mut host = spool(alloc, fuse)?;
    over_a_reboot(alloc, pick, &mut host)
}

fn over_a_reboot(alloc: Global, pick: u64, host: &mut MemoryHost) -> Result<(bool, Journal), Fail>
    requires { IsOutside (memory_session host.old) }
{
    host.enter(alloc)?;
    let is_done = matches!(compact(alloc, host), Ok(Some(_)));
    host.reboot(alloc, pick, None)?;
    host.enter(alloc)?;
    Ok((is_done, Journal::recall(alloc, host, 1)?))
}

// The calls are enter, settle, names, three that read the journal, and create, sync, rename and sync_names.
#[test]
fn a_compaction_drops_what_counts_no_more(rt: HostRuntime) -> Result<(), Fail> {
    let old = [Mark::Removed(1), Mark::Batch(5), Mark::Batch(7)];
    let new = [Mark::Removed(1), Mark::Batch(7)];
    for fuse in 1..11 {
        for pick in PICKS {
            let (is_done, journal) = stopped(rt.alloc(), fuse, pick)?;
            let is_new = fuse == 10 || fuse == 9 && pick % 4 == 3;
            let (marks, free) = if is_new {
                (new.as_slice(), 256)
            } else {
                (old.as_slice(), 1)
            };
            assert_eq!(rt; is_done, fuse == 10);
            assert_eq!(rt; journal.marks(), marks, "fuse {fuse}, pick {pick}");
            assert_eq!(rt; journal.free(), free);
        }
    }
    Ok(())
}
