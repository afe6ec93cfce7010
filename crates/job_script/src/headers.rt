//! Whose a job text is.
ghost use Rattle.std.specs.Prelude.{◌≡◌, ◌≤◌, ℕ, List, Bool, length, IfSome, MatchOption, MatchResult};
ghost use Rattle.spool_model.specs.Users.{is_user_byte};
ghost use Rattle.job_script.specs.Header.{BeginsWithHeader, HasHeader, IsHeaderFault, IsHeaderOf, HeaderSays, header_text};
ghost use Rattle.job_script.specs.declared.headers.TheConstants.{MAX_HEADER};
ghost use Rattle.job_script.specs.inside.Scan.{Matches, IsUserRun};

use spool_model::{MAX_USER_NAME, UserName};

const BEFORE_USER: [u8; 20] = *b"#!/bin/sh\n# at user=";

const WITHOUT_MAIL: [u8; 8] = *b" mail=0\n";

const WITH_MAIL: [u8; 8] = *b" mail=1\n";

/// The greatest length of a header, in bytes.
pub const MAX_HEADER: usize = 60;

/// Whose a job is, and whether its output is mailed in any case.
#[derive(Clone, Copy)]
pub struct JobHeader {
    pub user: UserName,
    pub mail: bool,
}

/// The header that the bytes begin with.
pub fn header(bytes: &[u8]) -> Option<JobHeader>
    ensures read { MatchOption result (¬ HasHeader bytes.now) (IsHeaderOf bytes.now) }
    ensures only { (user : List ℕ) (mail : Bool) → BeginsWithHeader bytes.now user mail
        → IfSome result (HeaderSays user mail) }
    ensures few { IfSome result (λ found. length (header_text found.user found.mail) ≤ MAX_HEADER) }
{
    read_header(bytes).ok()
}

/// Where the bytes leave the last header that they began like, if they begin with none.
pub fn header_fault(bytes: &[u8]) -> Option<u64>
    ensures { MatchOption result (HasHeader bytes.now) (IsHeaderFault bytes.now) }
{
    read_header(bytes).err()
}

// The header, or the place where there is a fault.
fn read_header(bytes: &[u8]) -> Result<JobHeader, u64>
    ensures { MatchResult result (IsHeaderOf bytes.now) (IsHeaderFault bytes.now) }
{
    let before = matched(bytes, &BEFORE_USER);
    if before < BEFORE_USER.len() {
        return Err(before as u64);
    }
    let (_, rest) = bytes.split_at(before);
    let count = user_length(rest);
    let (name, tail) = rest.split_at(count);
    let without = matched(tail, &WITHOUT_MAIL);
    let with = matched(tail, &WITH_MAIL);
    let Some(user) = UserName::of(name) else {
        return Err(before as u64);
    };
    if without == WITHOUT_MAIL.len() {
        return Ok(JobHeader { user, mail: false });
    }
    if with == WITH_MAIL.len() {
        return Ok(JobHeader { user, mail: true });
    }
    Err((before + count + without.max(with)) as u64)
}

// How many bytes of the text the bytes begin with.
fn matched(bytes: &[u8], text: &[u8]) -> usize
    ensures { Matches bytes.now text.now result }
{
    for (i, byte) in text.iter().enumerate() {
        if i >= bytes.len() || bytes[i] != *byte {
            return i;
        }
    }
    text.len()
}

// How many bytes at the start are a user's name, at most.
fn user_length(bytes: &[u8]) -> usize
    ensures { IsUserRun bytes.now result }
{
    if !bytes.is_empty() && bytes[0] == b'-' {
        return 0;
    }
    for (i, byte) in bytes.iter().enumerate() {
        if i >= MAX_USER_NAME || !is_header_byte(*byte) {
            return i;
        }
    }
    bytes.len()
}

fn is_header_byte(byte: u8) -> bool
    ensures { result ≡ is_user_byte byte }
{
    let is_mark = byte == b'.' || byte == b'_' || byte == b'-' || byte == b'$';
    byte.is_ascii_alphanumeric() || is_mark || byte == b'+' || byte == b'@'
}
