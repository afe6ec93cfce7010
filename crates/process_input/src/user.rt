//! The user who calls.
ghost use Rattle.std.specs.Prelude.{◌≡◌, IfOk, IfSome};
ghost use Rattle.caller_environment.specs.Status.{user_number_in};

use crate::environment::variable_or;
use caller_environment::{home_in, name_in_user_line, user_line, user_number_in};
use caller_rules::CallingUser;
use host_calls::Text;
use std::alloc::AllocError;
use std::os::unix::fs::MetadataExt;
use std::process::Command;
use std::{fs, str};

/// The user of the process with this status. The entry in the table of users has the name and the home directory, and
/// without one the variables `LOGNAME` and `HOME`.
pub fn calling_user(rt: &HostRuntime, status: &[u8]) -> Result<CallingUser, AllocError>
    ensures { IfOk result (λ user. user.number ≡ user_number_in status.now) }
{
    let called = variable_or(rt, "LOGNAME", "")?;
    let Some(number) = user_number_in(status) else {
        return Ok(CallingUser {
            number: None,
            name: called,
            home: None,
        });
    };
    match user_entry(rt, number, called.as_str())? {
        Some((name, home)) => Ok(CallingUser {
            number: Some(number),
            name,
            home: own_home(rt, home, number),
        }),
        None => Ok(CallingUser {
            number: Some(number),
            name: called,
            home: own_home(rt, variable_or(rt, "HOME", "")?, number),
        }),
    }
}

// The directory, where it exists and is the user's own.
fn own_home(rt: &HostRuntime, home: Text, number: u32) -> Option<Text>
    ensures { IfSome result (λ own. own ≡ home) }
{
    let is_own = is_home_of(rt, home.as_str(), number);
    Some(home).filter(|_| is_own)
}

fn is_home_of(rt: &HostRuntime, path: &str, user: u32) -> bool {
    match fs::metadata(rt, path) {
        Ok(found) => found.is_dir() && found.uid() == user,
        Err(_) => false,
    }
}

// The name and the home directory of a user, by the table of the machine, or else by the place where the system looks
// up users.
fn user_entry(
    rt: &HostRuntime,
    number: u32,
    name: &str,
) -> Result<Option<(Text, Text)>, AllocError> {
    if let Ok(table) = fs::read(rt, "/etc/passwd") {
        let found = entry_in(rt, table.as_slice(), number, name)?;
        if found.is_some() {
            return Ok(found);
        }
    }
    match asked_table(rt, number) {
        Some(table) => entry_in(rt, table.as_slice(), number, name),
        None => Ok(None),
    }
}

// What `getent` prints of a user.
fn asked_table(rt: &HostRuntime, number: u32) -> Option<Vec<u8>> {
    let digits = number.to_string(rt.alloc()).ok()?;
    let mut command = Command::new(rt.alloc(), "/usr/bin/getent").ok()?;
    let said = command
        .arg("passwd")
        .ok()?
        .arg(digits.as_str())
        .ok()?
        .output(rt)
        .ok()?;
    Some(said.stdout)
}

fn entry_in(
    rt: &HostRuntime,
    table: &[u8],
    number: u32,
    name: &str,
) -> Result<Option<(Text, Text)>, AllocError> {
    let Some(line) = user_line(table, number, name.as_bytes()) else {
        return Ok(None);
    };
    let home = home_in(line).unwrap_or(b"");
    match (
        str::from_utf8(name_in_user_line(line)),
        str::from_utf8(home),
    ) {
        (Ok(name), Ok(home)) => Ok(Some((
            Text::of(rt.alloc(), name)?,
            Text::of(rt.alloc(), home)?,
        ))),
        _ => Ok(None),
    }
}
