//! Whether a job can take over what its caller has.
ghost use Rattle.std.specs.Prelude.{◌≡◌, ◌↔◌, ◌<◌, ◌≤◌, min, IsTrue, Some, None, MatchResult};
ghost use Rattle.spool_model.specs.Users.{IsUserName};
ghost use Rattle.job_script.specs.Check.{IsDirectory, Checked, first_fault};
ghost use Rattle.job_script.specs.Variables.{line_length, lines_length};

use crate::kept::{is_kept_by_a_job, is_without_zero};
use crate::{Context, ScriptFault, Variables};
use spool_model::UserName;

/// The greatest length of a directory.
pub const MAX_DIRECTORY: usize = 4_096;

/// The greatest length of all lines of variables together.
pub const MAX_ENVIRONMENT: usize = 262_144;

/// Whether a job can take over the context. The first fault is answered: its user, its directory,
/// then its variables.
pub fn check(context: &Context) -> Result<(), ScriptFault>
    ensures refused { Checked context.now result }
    ensures first { MatchResult result (λ _. first_fault context.now ≡ None)
        (λ fault. first_fault context.now ≡ Some fault) }
{
    if UserName::of(context.user.as_str().as_bytes()).is_none() {
        return Err(ScriptFault::BadUser);
    }
    if !is_directory(context.directory.as_str()) {
        return Err(ScriptFault::BadDirectory);
    }
    if length_of_lines(&context.environment) > MAX_ENVIRONMENT {
        return Err(ScriptFault::EnvironmentTooLarge);
    }
    Ok(())
}

// Whether a job can change to the directory.
fn is_directory(directory: &str) -> bool
    ensures { IsTrue result ↔ IsDirectory directory.now }
{
    let bytes = directory.as_bytes();
    bytes.first() == Some(&b'/') && bytes.len() <= MAX_DIRECTORY && is_without_zero(bytes)
}

// The length of the lines of the variables that a job keeps. A sum that leaves `usize` stays at its
// greatest value.
fn length_of_lines(variables: &Variables) -> usize
    ensures { result ≡ min (lines_length variables.now) usize.MAX }
{
    let mut total: usize = 0;
    for (name, value) in variables.as_slice() {
        if is_kept_by_a_job(name.as_str(), value.as_str()) {
            total = total.saturating_add(length_of_line(name.as_str(), value.as_str()));
        }
    }
    total
}

// The length of a variable's line.
fn length_of_line(name: &str, value: &str) -> usize
    ensures { result ≡ min (line_length (name.now, value.now)) usize.MAX }
{
    let mut total = name.len().saturating_mul(2).saturating_add(13);
    for byte in value.as_bytes() {
        total = total.saturating_add(if *byte == b'\'' { 4 } else { 1 });
    }
    total
}
