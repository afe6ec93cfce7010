//! What is seen of spools, each over one host of its directory.
ghost use Rattle.std.specs.Prelude.{IfOk};
ghost use Rattle.host_calls.specs.Session.{IsOutside};
ghost use Rattle.unix_host.specs.UnixHost.{unix_session};

use crate::calls::{Call, sessions};
use crate::refusing::Refusing;
use crate::words::{clear, fresh_spool, host_of, host_over, line};
use std::cell::Cell;
use std::test::Fail;
use unix_host::UnixHost;

/// What is seen of a spool by the host of its directory.
pub fn seen_at(
    rt: &HostRuntime,
    path: &str,
    all: &[&[Call]],
    after: &str,
) -> Result<Vec<u8>, Fail> {
    let mut host = host_of(rt, path)?;
    let seen = sessions(rt, path, &mut host, all, after);
    drop(host);
    seen
}

// A host that keeps eight bytes of each file, and makes its directory the current directory.
fn moving_host(rt: &HostRuntime, path: &str) -> Result<UnixHost<HostRuntime>, Fail>
    ensures outside { IfOk result (λ host. IsOutside (unix_session host)) }
{
    Ok(host_of(rt, path)?.keeping(8).moving())
}

/// The same by a host that keeps eight bytes of each file, and makes its directory the current directory.
pub fn seen_moving(
    rt: &HostRuntime,
    path: &str,
    all: &[&[Call]],
    after: &str,
) -> Result<Vec<u8>, Fail> {
    let mut host = moving_host(rt, path)?;
    let seen = sessions(rt, path, &mut host, all, after);
    drop(host);
    seen
}

/// The same in one session of the spool in this directory, where the path with that end is one of a device.
pub fn seen_refused(
    rt: &HostRuntime,
    place: &str,
    (device, spared): (&'static str, u32),
    calls: &[Call],
) -> Result<Vec<u8>, Fail> {
    let path = format!(in rt.alloc(); "{place}/spool")?;
    let outside = Refusing {
        rt: rt.clone()?,
        device,
        spared: Cell::new(spared),
    };
    let mut host = host_over(outside, rt.alloc(), path.as_str())?;
    let seen = sessions(rt, path.as_str(), &mut host, &[calls], ":");
    drop(host);
    seen
}

// Prints the answers where they aren't the wanted ones.
fn are_wanted(rt: &HostRuntime, of: &str, answers: &[u8], wanted: &str) -> Result<(), Fail> {
    if answers == wanted.as_bytes() {
        return Ok(());
    }
    println!(rt; "{of}: {}", str::from_utf8(answers).unwrap_or("no text"))?;
    Err(Fail::from("other answers"))
}

/// This is seen of a spool that the first line makes.
pub fn try_spool(
    rt: &HostRuntime,
    test: &str,
    made: &str,
    all: &[&[Call]],
    after: &str,
    wanted: &str,
) -> Result<(), Fail> {
    let path = fresh_spool(rt, test)?;
    line(rt, made, path.as_str())?;
    let seen = seen_at(rt, path.as_str(), all, after)?;
    clear(rt, path.as_str())?;
    are_wanted(rt, test, seen.as_slice(), wanted)
}

/// The same by the host that moves, in one session.
pub fn try_moving(
    rt: &HostRuntime,
    test: &str,
    made: &str,
    calls: &[Call],
    wanted: &str,
) -> Result<(), Fail> {
    let path = fresh_spool(rt, test)?;
    line(rt, made, path.as_str())?;
    let seen = seen_moving(rt, path.as_str(), &[calls], ":")?;
    clear(rt, path.as_str())?;
    are_wanted(rt, test, seen.as_slice(), wanted)
}

/// The same of a spool in a directory that the first line makes, where the path with that end is one of a device.
pub fn try_refused(
    rt: &HostRuntime,
    test: &str,
    made: &str,
    (device, spared): (&'static str, u32),
    calls: &[Call],
    wanted: &str,
) -> Result<(), Fail> {
    let place = fresh_spool(rt, test)?;
    line(rt, made, place.as_str())?;
    let seen = seen_refused(rt, place.as_str(), (device, spared), calls)?;
    clear(rt, place.as_str())?;
    are_wanted(rt, device, seen.as_slice(), wanted)
}
