//! How a job is started, and how it ended.
ghost use Rattle.std.specs.Prelude.{◌≡◌, ◌↔◌, ◌⊎◌, ◌++◌, ◌<◌, ℕ, IfErr, IfOk, IsTrue, OnOk, map, pos, string_bytes};
ghost use Rattle.std.specs.IoError.{error_kind};
ghost use Rattle.std.specs.Path.{IsAbsolute};
ghost use Rattle.std.specs.Process.{SameDir, SameEnv, command_args, command_program};
ghost use Rattle.unix_host.specs.Endings.{ending_for};
ghost use Rattle.unix_host.specs.inside.JobCommand.{IsJobCommand};
ghost use Rattle.unix_host.specs.inside.Paths.{file_in};

use crate::paths::Paths;
use host_calls::{Ending, Name, StartFault};
use std::alloc::{AllocError, Global};
use std::io::ErrorKind;
use std::os::unix::process::ExitStatusExt;
use std::process::{Command, ExitStatus, Processes};
use std::time::{Clock, Duration};
use std::{io, process, thread};

// Runs the script `$2` at the niceness `$1` with no environment, and puts what it writes into `$3`. Where that can't be made,
// the script runs all the same: what it writes is lost, and standard error says which file it is.
const LINE: &str = "{ command : >\"$3\"; } 2>/dev/null || \
    { printf '%s: no output file %s\\n' \"$0\" \"$3\" >&2; set -- \"$1\" \"$2\" /dev/null; }; \
    exec nice -n \"$1\" env -i /bin/sh \"$2\" >\"$3\" 2>&1 </dev/null";

// How often a start is tried that runs out of memory or no process, and how many milliseconds the system is given in
// between.
const TRIES: u32 = 4;

const PAUSE: u64 = 100;

/// What a start requests: the job by the name of its file, and how nice it is to be.
#[derive(Clone, Copy)]
pub struct JobStart {
    pub name: Name,
    pub nice: u8,
}

/// A child, and what it was started as.
#[derive(Drop)]
pub struct ChildProcess<R: Processes> {
    pub process: process::Child<R::Started>,
    pub started_as: JobStart,
}

/// Starts a job of the directory with these paths. Its mark is durable by then, so an out-of-memory error is a failed start
/// too: the job has not begun, and the turn that goes on can say so.
pub fn start<R: Processes + Clock>(
    rt: &R,
    alloc: Global,
    paths: &Paths,
    start: JobStart,
) -> Result<ChildProcess<R>, StartFault>
    ensures started_as { IfOk result (λ kid. kid.started_as ≡ start) }
    ensures failed { IfErr result (λ fault. fault ≡ StartFault.Failed) }
{
    for _ in 1..TRIES {
        match try_start(rt, alloc, paths, &start) {
            Ok(kid) => return Ok(kid),
            Err(error) => {
                if !is_short(&error) {
                    return Err(StartFault::Failed);
                }
            }
        }
        thread::sleep(rt, Duration::from_millis(PAUSE));
    }
    try_start(rt, alloc, paths, &start).map_err(|_| StartFault::Failed)
}

// Starts it once.
fn try_start<R: Processes>(
    rt: &R,
    alloc: Global,
    paths: &Paths,
    start: &JobStart,
) -> io::Result<ChildProcess<R>>
    ensures started_as { IfOk result (λ kid. kid.started_as ≡ start.now) }
{
    let script = paths.script(alloc, &start.name)?;
    let output = paths.output(alloc, &start.name)?;
    let command = command_of(alloc, start.nice, script.as_str(), output.as_str())?;
    spawned(rt, command, paths, *start)
}

// The child of this command.
fn spawned<R: Processes>(
    rt: &R,
    mut command: Command,
    paths: &Paths,
    start: JobStart,
) -> io::Result<ChildProcess<R>>
    requires { IsJobCommand start.nice (file_in (string_bytes paths.now.whole) start.name)
        (file_in (string_bytes paths.now.outputs) start.name) command }
    ensures started_as { IfOk result (λ kid. kid.started_as ≡ start) }
{
    let _ = paths;
    let spawned = command.spawn(rt);
    drop(command);
    match spawned {
        Ok(process) => Ok(ChildProcess {
            process,
            started_as: start,
        }),
        Err(error) => Err(error),
    }
}

// Whether the system had no memory, or no room for one more process: that may pass.
fn is_short(error: &io::Error) -> bool
    ensures { IsTrue result ↔
        (error_kind error.now ≡ ErrorKind.OutOfMemory ⊎ error_kind error.now ≡ ErrorKind.WouldBlock) }
{
    matches!(error.kind(), ErrorKind::OutOfMemory | ErrorKind::WouldBlock)
}

// A shell would read a word that begins with a dash as options.
fn command_of(alloc: Global, nice: u8, script: &str, output: &str) -> Result<Command, AllocError>
    requires script { IsAbsolute script.now }
    requires output { IsAbsolute output.now }
    ensures { IfOk result (IsJobCommand nice script.now output.now) }
{
    let niceness = nice.to_string(alloc)?;
    let words = ["-c", LINE, "atjob", niceness.as_str(), script, output];
    let mut command = Command::new(alloc, "/bin/sh")?;
    add_words(&mut command, words.as_slice())?;
    Ok(command)
}

fn add_words(command: &mut Command, words: &[&str]) -> Result<(), AllocError>
    ensures words { OnOk result (command_args command.new
        ≡ command_args command.old ++ map (λ word. word.now) words.now) }
    ensures program { OnOk result (command_program command.new ≡ command_program command.old) }
    ensures env { OnOk result (SameEnv command.old command.new) }
    ensures directory { OnOk result (SameDir command.old command.new) }
{
    command.args(words)?;
    Ok(())
}

/// How a child with this status ended.
pub fn ending_of(status: ExitStatus) -> Ending
    ensures { result ≡ ending_for status }
{
    match status.code() {
        Some(code) => Ending::Exit(status_byte(code)),
        None => match status.signal() {
            Some(signal) => Ending::Signal(status_byte(signal)),
            None => Ending::Signal(0),
        },
    }
}

// The numbers of exits and signals are bytes.
fn status_byte(number: i32) -> u8
    ensures { (byte : ℕ) → byte < 256 → number ≡ pos byte → result ≡ byte }
{
    u8::try_from(number).unwrap_or(0)
}
