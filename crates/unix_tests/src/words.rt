//! What the tests are written in. Each test has a directory of its own.
ghost use Rattle.std.specs.Prelude.{◌≡◌, is_ok, IfOk};
ghost use Rattle.host_calls.specs.Session.{IsOutside};
ghost use Rattle.unix_host.specs.UnixHost.{unix_session};

use host_calls::{Host, HostFault, Name, Text};
use std::alloc::{AllocError, Global};
use std::fs::File;
use std::process::{Command, Processes};
use std::rt::Runtime;
use std::test::Fail;
use std::{io, process};
use unix_host::UnixHost;

/// What a line of the shell prints, whose `$1` is the path.
pub fn line(rt: &HostRuntime, text: &str, path: &str) -> io::Result<Vec<u8>> {
    let mut shell = Command::new(rt.alloc(), "/bin/sh")?;
    printed(rt, &mut shell, &["-c", text, "sh", path])
}

// What a command prints with these words.
fn printed(rt: &HostRuntime, command: &mut Command, words: &[&str]) -> io::Result<Vec<u8>> {
    command.args(words)?;
    Ok(command.output(rt)?.stdout)
}

/// The path of a directory that no other test has, and that isn't there.
pub fn fresh_spool(rt: &HostRuntime, test: &str) -> Result<String, Fail> {
    let own = process::id(rt.process());
    let path = format!(in rt.alloc(); "/tmp/unix_host_{own}_{test}")?;
    clear(rt, path.as_str())?;
    Ok(path)
}

/// Removes a directory and what lies next to it.
pub fn clear(rt: &HostRuntime, path: &str) -> Result<(), Fail> {
    line(rt, "rm -rf \"$1\" \"$1.out\" \"$1.lock\" \"$1.link\"", path)?;
    Ok(())
}

/// The host of a directory of the system.
pub fn host_of(rt: &HostRuntime, path: &str) -> Result<UnixHost<HostRuntime>, Fail>
    ensures outside { IfOk result (λ host. IsOutside (unix_session host)) }
{
    Ok(host_over(rt.clone()?, rt.alloc(), path)?)
}

/// The host of a directory over an outside.
pub fn host_over<R: Runtime<File = File> + Processes>(
    outside: R,
    alloc: Global,
    path: &str,
) -> Result<UnixHost<R>, AllocError>
    ensures outside { IfOk result (λ host. IsOutside (unix_session host)) }
{
    let spool = Text::of(alloc, path)?;
    UnixHost::make(outside, alloc, spool)
}

/// The name of a file.
pub fn named(text: &str) -> Result<Name, HostFault> {
    Name::of(text.as_bytes()).ok_or(HostFault::Failed)
}

/// Begins a session.
pub fn begin<H: Host>(alloc: Global, host: &mut H) -> Result<(), HostFault>
    requires outside { IsOutside (H.session host.old) }
    ensures inside { (H.session host.new).inside ≡ is_ok result }
{
    host.enter(alloc).map_err(|_| HostFault::Failed)
}
