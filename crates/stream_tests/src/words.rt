//! What the tests are written in. Each test has a path of its own.
use host_calls::Name;
use std::process;
use std::process::{Abort, Command, Processes};
use std::test::Fail;

/// What a line of the shell prints, whose `$1` is the path.
pub fn line(rt: &HostRuntime, text: &str, path: &str) -> Result<Vec<u8>, Fail> {
    let mut shell = Command::new(rt.alloc(), "/bin/sh")?;
    printed(rt, &mut shell, &["-c", text, "sh", path])
}

// What a command prints with these words.
fn printed(rt: &HostRuntime, command: &mut Command, words: &[&str]) -> Result<Vec<u8>, Fail> {
    command.args(words)?;
    Ok(command.output(rt)?.stdout)
}

/// A path that no other test has, where nothing is.
pub fn fresh_path(rt: &HostRuntime, test: &str) -> Result<String, Fail> {
    let own = process::id(rt.process());
    let path = format!(in rt.alloc(); "/tmp/streams_{own}_{test}")?;
    clear(rt, path.as_str())?;
    Ok(path)
}

/// Removes what is at a path.
pub fn clear(rt: &HostRuntime, path: &str) -> Result<(), Fail> {
    line(rt, "rm -rf \"$1\"", path)?;
    Ok(())
}

pub fn named(rt: &impl Abort, text: &str) -> Name {
    Name::of(text.as_bytes()).expect(rt, "a name")
}

/// A child of this process that runs this line of the shell.
pub fn shell(
    rt: &HostRuntime,
    text: &str,
) -> Result<process::Child<<HostRuntime as Processes>::Started>, Fail> {
    let mut shell = Command::new(rt.alloc(), "/bin/sh")?;
    shell.args(["-c", text].as_slice())?;
    Ok(shell.spawn(rt)?)
}
