//! A target of a salvage that holds a spool.
ghost use Rattle.std.specs.Prelude.{IfOk};
ghost use Rattle.host_calls.specs.Session.{IsOutside};
ghost use Rattle.memory_host.specs.Host.{memory_session};

use crate::directories::{JOB, code_of, directory, named};
use memory_host::MemoryHost;
use std::alloc::Global;
use std::test::Fail;

// A whole directory.
fn whole(alloc: Global) -> Result<MemoryHost, Fail>
    ensures { IfOk result (λ host. IsOutside (memory_session host)) }
{
    let files = [(".SEQ", b"00000001\n".as_slice()), ("a0000101b968a0", JOB)];
    directory(alloc, &files, None)
}

// The status of a salvage of a whole directory into this one.
fn salvage_into(alloc: Global, to: &mut MemoryHost) -> Result<u8, Fail>
    requires { IsOutside (memory_session to.old) }
    ensures { IsOutside (memory_session to.new) }
{
    let mut from = whole(alloc)?;
    Ok(code_of(alloc, &["atcheck", "--salvage"], &mut from, to)?)
}

// The statuses of two salvages into a directory with a list of users, and whether the list stays.
fn twice(alloc: Global) -> Result<(u8, u8, bool), Fail> {
    let mut to = directory(alloc, &[("at.deny", b"ben\n")], None)?;
    let first = salvage_into(alloc, &mut to)?;
    let second = salvage_into(alloc, &mut to)?;
    let stays = to.reading(&named("at.deny")?) == Some(b"ben\n".as_slice());
    Ok((first, second, stays))
}

// A whole directory is saved next to a list of users, and then the target holds a spool.
#[test]
fn a_target_that_holds_a_spool(rt: HostRuntime) -> Result<(), Fail> {
    let seen = twice(rt.alloc())?;
    assert_eq!(rt; seen, (0, 1, true));
    Ok(())
}
