//! A salvage that a crash cuts off at each host call of the new directory.
ghost use Rattle.std.specs.Prelude.{IfOk};
ghost use Rattle.host_calls.specs.Session.{IsOutside};
ghost use Rattle.memory_host.specs.Host.{memory_session};

use crate::directories::{JOB, code_of, directory, named};
use memory_host::MemoryHost;
use std::alloc::Global;
use std::test::Fail;

// A directory with a fault, of which two jobs are saved.
fn damaged(alloc: Global) -> Result<MemoryHost, Fail>
    ensures { IfOk result (λ host. IsOutside (memory_session host)) }
{
    let files = [
        (".SEQ", b"00001\n".as_slice()),
        ("a0000101b968a0", JOB),
        ("a0000201b968a0", JOB),
    ];
    directory(alloc, &files, None)
}

// Salvages into a directory where no call gets through from the fuse on, and reboots it with the pick: the status, and
// whether the sequence file is there, with which both jobs do.
fn cut_off(alloc: Global, fuse: u64, pick: u64) -> Result<(u8, bool), Fail> {
    let mut from = damaged(alloc)?;
    let mut to = directory(alloc, &[], Some(fuse))?;
    let code = code_of(alloc, &["atcheck", "--salvage"], &mut from, &mut to)?;
    to.reboot(alloc, pick, None)?;
    let holds = to.reading(&named(".SEQ")?).is_some();
    if holds {
        are_saved(&to)?;
    }
    Ok((code, holds))
}

fn are_saved(to: &MemoryHost) -> Result<(), Fail> {
    for &name in &["a0000101b968a0", "a0000201b968a0"] {
        let bytes = to.reading(&named(name)?).ok_or("a job")?;
        (bytes == JOB).then_some(()).ok_or("the job's bytes")?;
    }
    Ok(())
}

// A salvage of two jobs has so many host calls.
const CALLS: u64 = 18;

#[test]
fn the_sequence_file_comes_last(rt: HostRuntime) -> Result<(), Fail> {
    for fuse in 1..CALLS + 2 {
        for &pick in &[0, 1, u64::MAX] {
            let (code, holds) = cut_off(rt.alloc(), fuse, pick)?;
            assert_eq!(rt; code == 9, fuse == CALLS + 1, "fuse {fuse}, pick {pick}");
            assert!(rt; holds || code != 9, "fuse {fuse}, pick {pick}");
        }
    }
    Ok(())
}
