//! The user number of a process.
ghost use Rattle.std.specs.Prelude.{◌≡◌, option_copied};
ghost use Rattle.caller_environment.specs.Status.{uid_line, user_number_in};

use crate::digits::user_number;
use crate::fields::field;

/// The effective user number that the status of a process has: the second number of its first line `Uid:`.
pub fn user_number_in(status: &[u8]) -> Option<u32>
    ensures { result ≡ user_number_in status.now }
{
    let line = uid_line(status)?;
    user_number(field(line, b'\t', 2)?)
}

// The first line of user numbers.
fn uid_line(status: &[u8]) -> Option<&[u8]>
    ensures { option_copied result ≡ uid_line status.now }
{
    status
        .split(|byte| *byte == b'\n')
        .find(|line| line.starts_with(b"Uid:\t"))
}
