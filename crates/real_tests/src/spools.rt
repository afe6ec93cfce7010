//! A real directory and its model: a spool that has an empty list of users who may not use `at`, and no other file.
ghost use Rattle.std.specs.Prelude.{◌≡◌, true, IfOk};
ghost use Rattle.host_calls.specs.Session.{IsOutside};

use crate::keeping::Keeping;
use host_calls::{Host, Name, Text};
use memory_host::{Files, MemoryHost, Plan};
use real_programs::{RealDirectory, existing_directory};
use std::alloc::Global;
use std::process;
use std::process::Command;
use std::test::Fail;
use unix_host::Waits;

/// A real directory, next to one who keeps what it holds.
pub type KeptDirectory = RealDirectory<Keeping>;

/// Does a line of the shell, whose `$1` is the path.
pub fn line(rt: &HostRuntime, text: &str, path: &str) -> Result<(), Fail> {
    let mut shell = Command::new(rt.alloc(), "/bin/sh")?;
    shell.args(&["-c", text, "sh", path])?;
    shell.output(rt)?;
    Ok(())
}

/// The path of such a directory, which no other test has.
pub fn fresh_spool(rt: &HostRuntime, test: &str) -> Result<String, Fail> {
    let own = process::id(rt.process());
    let path = format!(in rt.alloc(); "/tmp/real_tests_{own}_{test}")?;
    clear(rt, path.as_str())?;
    line(
        rt,
        "mkdir \"$1\" \"$1.out\" && : >\"$1/at.deny\"",
        path.as_str(),
    )?;
    Ok(path)
}

/// Removes a directory and what lies next to it.
pub fn clear(rt: &HostRuntime, path: &str) -> Result<(), Fail> {
    line(rt, "rm -rf \"$1\" \"$1.out\" \"$1.lock\"", path)
}

/// The directory, next to one who knows that it is such a spool.
pub fn kept_directory(rt: &HostRuntime, path: &str) -> Result<KeptDirectory, Fail>
    ensures { IfOk result (λ directory. IsOutside (⟦<KeptDirectory as Host>⟧.session directory)) }
{
    let alloc = rt.alloc();
    let keeping = Keeping::new(alloc, model(alloc)?);
    let spool = Text::of(alloc, path)?;
    Ok(existing_directory(rt, spool, Waits::Asking, keeping)?)
}

// The files of such a spool.
fn files(alloc: Global) -> Result<Files, Fail> {
    let mut files = Files::new(alloc);
    files.put(alloc, Name::of(b"at.deny").ok_or("a name")?, b"")?;
    Ok(files)
}

// The model of such a spool, within a session.
fn model(alloc: Global) -> Result<MemoryHost, Fail>
    ensures { IfOk result (λ model. model.is_inside ≡ true) }
{
    let mut model = MemoryHost::make(alloc, files(alloc)?, Plan::quiet(alloc))?;
    model.enter(alloc)?;
    Ok(model)
}
