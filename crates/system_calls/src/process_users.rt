//! The users of the machine, by the place where the system looks them up.
use host_calls::Bytes;
use std::process::Command;

/// The lines that `getent passwd` prints of a user number, in decimal.
pub(crate) fn user_lines(rt: &HostRuntime, number: &str) -> Option<Bytes> {
    let mut command = Command::new(rt.alloc(), "/usr/bin/getent").ok()?;
    let printed = command
        .arg("passwd")
        .ok()?
        .arg(number)
        .ok()?
        .output(rt)
        .ok()?;
    Some(Bytes::from(printed.stdout))
}
