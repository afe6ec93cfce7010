//! Calls of a host, and its answers in words. Each answer is followed by `;`, and `!` is a fault.
ghost use Rattle.std.specs.Prelude.{◌≡◌, false, Contains};
ghost use Rattle.host_calls.specs.Session.{IsInside, IsOutside, StaysInside};

use crate::words::{begin, line, named};
use host_calls::{Child, Ending, Host, HostFault, Name, StartFault};
use std::alloc::{AllocError, Global};
use std::test::Fail;
use std::thread;
use std::time::Duration;

/// A call of a session, or what is done between two calls.
#[derive(Clone, Copy)]
pub enum Call {
    Settle,
    /// The names, each after a blank.
    Names,
    /// The length of this file.
    Length(&'static str),
    /// So many bytes of this file, from this offset on.
    Read(&'static str, u64, usize),
    Create(&'static str, &'static str),
    Write(&'static str, u64, &'static str),
    Sync(&'static str),
    SyncNames,
    Rename(&'static str, &'static str),
    Remove(&'static str),
    /// A job of the niceness 2 by this script: the number of its child, and how it ended, asked twice.
    Run(&'static str),
    /// A line of the shell, whose `$1` is the path of the spool.
    Shell(&'static str),
}

// Makes a call that answers nothing but that it went well.
fn done<H: Host>(alloc: Global, host: &mut H, call: Call) -> Result<(), HostFault>
    requires unknown { H.tells ≡ false }
    requires inside { IsInside (H.session host.old) }
    ensures inside { IsInside (H.session host.new) }
{
    match call {
        Call::Settle => host.settle(alloc),
        Call::Create(name, bytes) => host.create(alloc, &named(name)?, bytes.as_bytes()),
        Call::Write(name, offset, bytes) => {
            host.write(alloc, &named(name)?, offset, bytes.as_bytes())
        }
        Call::Sync(name) => host.sync(alloc, &named(name)?),
        Call::SyncNames => host.sync_names(alloc),
        Call::Rename(from, to) => host.rename(alloc, &named(from)?, &named(to)?),
        Call::Remove(name) => host.remove(alloc, &named(name)?),
        _ => Ok(()),
    }
}

// All names of a session, each after a blank.
fn listed<H: Host>(alloc: Global, host: &mut H) -> Result<Vec<u8>, HostFault>
    requires inside { IsInside (H.session host.old) }
    ensures inside { IsInside (H.session host.new) }
{
    let mut list = Vec::new(alloc);
    for name in &host.names(alloc)? {
        list.extend_from_slice(b" ")?;
        list.extend_from_slice(name.as_bytes())?;
    }
    Ok(list)
}

// How the child ends, if it ends within ten seconds.
fn awaited<H: Host>(
    rt: &HostRuntime,
    host: &mut H,
    child: &Child,
) -> Result<Option<Ending>, HostFault>
    requires inside { IsInside (H.session host.old) }
    requires started { Contains (H.session host.old).children child.now }
    ensures inside { StaysInside (H.session host.old) (H.session host.new) }
{
    for _ in 0..1000 {
        if let Some(ending) = host.ended(rt.alloc(), child)? {
            return Ok(Some(ending));
        }
        thread::sleep(rt, Duration::from_millis(10));
    }
    Ok(None)
}

// An ending in words.
fn ending_text(alloc: Global, ending: Option<Ending>) -> Result<String, AllocError> {
    match ending {
        Some(Ending::Exit(status)) => format!(in alloc; "exit {status}"),
        Some(Ending::Signal(number)) => format!(in alloc; "signal {number}"),
        Some(Ending::NotStarted) => "not started".to_string(alloc),
        None => "running".to_string(alloc),
    }
}

// A child and its two answers in words.
fn run_text(
    alloc: Global,
    child: Child,
    first: Option<Ending>,
    again: Option<Ending>,
) -> Result<Vec<u8>, AllocError> {
    let first = ending_text(alloc, first)?;
    let again = ending_text(alloc, again)?;
    let text = format!(in alloc; "{} {} {}", child.id, first.as_str(), again.as_str())?;
    Vec::from_slice(alloc, text.as_bytes())
}

// Runs a job, and polls twice how it ended.
fn ran<H: Host>(rt: &HostRuntime, host: &mut H, name: &Name) -> Result<Vec<u8>, HostFault>
    requires unknown { H.tells ≡ false }
    requires inside { IsInside (H.session host.old) }
    ensures inside { IsInside (H.session host.new) }
{
    match host.start(rt.alloc(), 1, name, 2) {
        Ok(child) => {
            let first = awaited(rt, host, &child)?;
            let again = host.ended(rt.alloc(), &child)?;
            Ok(run_text(rt.alloc(), child, first, again)?)
        }
        Err(StartFault::Failed) => Err(HostFault::Failed),
        Err(StartFault::Memory) => Err(HostFault::Memory),
    }
}

// What a call answers.
fn told<H: Host>(
    rt: &HostRuntime,
    path: &str,
    host: &mut H,
    call: Call,
) -> Result<Vec<u8>, HostFault>
    requires unknown { H.tells ≡ false }
    requires inside { IsInside (H.session host.old) }
    ensures inside { IsInside (H.session host.new) }
{
    let alloc = rt.alloc();
    match call {
        Call::Names => listed(alloc, host),
        Call::Length(name) => {
            let length = host.length(alloc, &named(name)?)?;
            Ok(format!(in alloc; "{length}")?.into_bytes())
        }
        Call::Read(name, offset, most) => host.read(alloc, &named(name)?, offset, most),
        Call::Run(name) => ran(rt, host, &named(name)?),
        Call::Shell(text) => line(rt, text, path).map_err(|_| HostFault::Failed),
        _ => {
            done(alloc, host, call)?;
            Ok(Vec::new(alloc))
        }
    }
}

/// The answers to the calls.
pub fn answers<H: Host>(
    rt: &HostRuntime,
    path: &str,
    host: &mut H,
    calls: &[Call],
) -> Result<Vec<u8>, HostFault>
    requires unknown { H.tells ≡ false }
    requires inside { IsInside (H.session host.old) }
    ensures inside { IsInside (H.session host.new) }
{
    let mut all = Vec::new(rt.alloc());
    for call in calls {
        match told(rt, path, host, *call) {
            Ok(answer) => all.extend_from_slice(&answer)?,
            Err(HostFault::Failed) => all.extend_from_slice(b"!")?,
            Err(HostFault::Memory) => return Err(HostFault::Memory),
        }
        all.extend_from_slice(b";")?;
    }
    Ok(all)
}

/// The answers to the calls of a session, or `!` where it doesn't begin.
pub fn session<H: Host>(
    rt: &HostRuntime,
    path: &str,
    host: &mut H,
    calls: &[Call],
) -> Result<Vec<u8>, HostFault>
    requires unknown { H.tells ≡ false }
    requires outside { IsOutside (H.session host.old) }
    ensures outside { IsOutside (H.session host.new) }
{
    if begin(rt.alloc(), host).is_err() {
        return Ok(Vec::from_slice(rt.alloc(), b"!")?);
    }
    let all = answers(rt, path, host, calls);
    host.leave();
    all
}

/// The answers of each session, and after them what the line of the shell prints then.
pub fn sessions<H: Host>(
    rt: &HostRuntime,
    path: &str,
    host: &mut H,
    all: &[&[Call]],
    after: &str,
) -> Result<Vec<u8>, Fail>
    requires unknown { H.tells ≡ false }
    requires outside { IsOutside (H.session host.old) }
{
    let mut seen = Vec::new(rt.alloc());
    for calls in all {
        seen.extend_from_slice(&session(rt, path, host, calls)?)?;
        seen.extend_from_slice(&line(rt, after, path)?)?;
    }
    Ok(seen)
}
