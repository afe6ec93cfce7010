//! A file that is replaced, stopped at each host call, and what a reboot leaves by its pick.
ghost use Rattle.std.specs.Prelude.{IfOk};
ghost use Rattle.host_calls.specs.Session.{IsInside, IsOutside, StaysInside};
ghost use Rattle.memory_host.specs.Host.{memory_session};

use crate::directories::name;
use host_calls::{Host, HostFault};
use memory_host::{Files, MemoryHost, Plan};
use sequence_file::sequence_name;
use std::alloc::Global;
use std::test::Fail;
use whole_file::{content, place, temporary_name};

const PICKS: [u64; 4] = [0, 1, 255, u64::MAX];

// A directory whose last number is 1, where no call gets through from the fuse on.
fn spool(alloc: Global, fuse: u64) -> Result<MemoryHost, Fail>
    ensures { IfOk result (λ host. IsOutside (memory_session host)) }
{
    let mut files = Files::new(alloc);
    files.put(alloc, name(".SEQ")?, b"00001\n")?;
    let mut plan = Plan::quiet(alloc);
    plan.fuse = Some(fuse);
    Ok(MemoryHost::make(alloc, files, plan)?)
}

// Gives the sequence file these bytes, unless a file that was being made is still there. Its host calls are `settle`,
// `names`, `create`, `sync`, `rename` and `sync_names`.
fn replace<H: Host>(alloc: Global, host: &mut H, bytes: &[u8]) -> Result<bool, HostFault>
    requires { IsInside (H.session host.old) }
    ensures { StaysInside (H.session host.old) (H.session host.new) }
{
    host.settle(alloc)?;
    match content(alloc, host, &temporary_name())? {
        Some(_) => Ok(false),
        None => {
            place(alloc, host, &temporary_name(), &sequence_name(), bytes)?;
            Ok(true)
        }
    }
}

// Whether the file was replaced; and then, by the pick of a reboot, whether it has its new bytes, and whether the file
// that was being made is left.
fn replaced(alloc: Global, fuse: u64, pick: u64) -> Result<(bool, bool, bool), Fail> {
    let mut host = spool(alloc, fuse)?;
    let is_done = over_a_reboot(alloc, pick, &mut host)?;
    left(&host, is_done)
}

fn over_a_reboot(alloc: Global, pick: u64, host: &mut MemoryHost) -> Result<bool, Fail>
    requires { IsOutside (memory_session host.old) }
{
    host.enter(alloc)?;
    let is_done = replace(alloc, host, b"00002\n").is_ok();
    host.reboot(alloc, pick, None)?;
    Ok(is_done)
}

fn left(host: &MemoryHost, is_done: bool) -> Result<(bool, bool, bool), Fail> {
    let bytes = host.reading(&sequence_name()).ok_or("a sequence file")?;
    let is_new = bytes == b"00002\n".as_slice();
    let is_old = bytes == b"00001\n".as_slice();
    (is_new || is_old).then_some(()).ok_or("other bytes")?;
    Ok((is_done, is_new, host.reading(&temporary_name()).is_some()))
}

// The new file's name is the first change of names, its renaming the second, which does nothing without the first.
#[test]
fn a_file_is_replaced_whole_or_not_at_all(rt: HostRuntime) -> Result<(), Fail> {
    for fuse in 1..8 {
        for pick in PICKS {
            let (is_done, is_new, is_left) = replaced(rt.alloc(), fuse, pick)?;
            assert_eq!(rt; is_done, fuse == 7);
            assert_eq!(rt;
                is_new,
                fuse == 7 || fuse == 6 && pick % 4 == 3,
                "fuse {fuse}, pick {pick}"
            );
            let should_be_left = fuse >= 4 && pick % 2 == 1 && !is_new;
            assert_eq!(rt; is_left, should_be_left, "fuse {fuse}, pick {pick}");
        }
    }
    Ok(())
}
