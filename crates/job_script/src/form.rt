//! Whether bytes have the form of a job text.
ghost use Rattle.std.specs.Prelude.{◌≡◌, ◌≢◌, ◌≤◌, ◌<◌, ◌++◌, ◌↔◌, ℕ, List, IsTrue, MatchOption};
ghost use Rattle.job_script.specs.Form.{IsJobText};
ghost use Rattle.job_script.specs.inside.Prefixes.{HasLines, HasDirectory, IsLinePrefix, IsPartPrefix, IsQuotedPrefix, IsUmaskPrefix, IsNameRun};

use crate::headers::header;
use crate::kept::{is_variable_byte, may_be_set_in_a_job};

const AFTER_DIRECTORY: &[u8] =
    b" || {\n\techo 'Execution directory inaccessible' >&2\n\texit 1\n}\n";

// The length of a header without its user.
const HEADER: usize = 28;

/// Whether the bytes have the form that `write` gives a job text, with any variables that a job
/// keeps and a directory of any length.
pub fn is_job_text(bytes: &[u8]) -> bool
    ensures { IsTrue result ↔ IsJobText bytes.now }
{
    let Some(found) = header(bytes) else {
        return false;
    };
    let (_, rest) = bytes.split_at(HEADER + found.user.as_bytes().len());
    match after_umask(rest) {
        Some(lines) => has_lines(lines),
        None => false,
    }
}

// What is after the text, if the bytes begin with it.
fn after<'a>(bytes: &'a [u8], text: &[u8]) -> Option<&'a [u8]>
    ensures { MatchOption result ((rest : List ℕ) → bytes.now ≢ text.now ++ rest)
        (λ rest. bytes.now ≡ text.now ++ rest.now) }
{
    bytes.strip_prefix(text)
}

// What is after the line of the umask.
fn after_umask(bytes: &[u8]) -> Option<&[u8]>
    ensures { MatchOption result ((rest : List ℕ) → ¬ IsUmaskPrefix bytes.now rest)
        (λ rest. IsUmaskPrefix bytes.now rest.now) }
{
    let rest = after(bytes, b"umask 0")?;
    if rest.len() < 4 || !is_octal(rest[0]) || !is_octal(rest[1]) || !is_octal(rest[2]) {
        return None;
    }
    let (_, end) = rest.split_at(3);
    after(end, b"\n")
}

fn is_octal(byte: u8) -> bool
    ensures { IsTrue result ↔ (48 ≤ byte) × (byte < 56) }
{
    b'0' <= byte && byte <= b'7'
}

// Whether the lines of variables are there, and then those that change the directory.
fn has_lines(bytes: &[u8]) -> bool
    ensures { IsTrue result ↔ HasLines bytes.now }
{
    let mut rest = bytes;
    while let Some(more) = after_variable(rest) {
        rest = more;
    }
    has_directory(rest)
}

// What is after the line of a variable.
fn after_variable(bytes: &[u8]) -> Option<&[u8]>
    ensures { MatchOption result ((rest : List ℕ) → ¬ IsLinePrefix bytes.now rest)
        (λ rest. IsLinePrefix bytes.now rest.now) }
{
    let (name, rest) = bytes.split_at(name_length(bytes));
    if !may_be_set_in_a_job(name) {
        return None;
    }
    let word = after(rest, b"=")?;
    let export = after_quoted(word)?;
    let again = after(export, b"; export ")?;
    let end = after(again, name)?;
    after(end, b"\n")
}

// How many of the first bytes may be in a variable's name.
fn name_length(bytes: &[u8]) -> usize
    ensures { IsNameRun bytes.now result }
{
    for (i, byte) in bytes.iter().enumerate() {
        if !is_variable_byte(*byte) {
            return i;
        }
    }
    bytes.len()
}

// Whether the lines are there that change the directory.
fn has_directory(bytes: &[u8]) -> bool
    ensures { IsTrue result ↔ HasDirectory bytes.now }
{
    let Some(word) = after(bytes, b"cd ") else {
        return false;
    };
    if after(word, b"'/").is_none() {
        return false;
    }
    match after_quoted(word) {
        Some(rest) => after(rest, AFTER_DIRECTORY).is_some(),
        None => false,
    }
}

// What is after a value between single quotes.
// It ends at the first quote that no `\''` follows. A job text has `;` or a space next: no other reading.
fn after_quoted(bytes: &[u8]) -> Option<&[u8]>
    ensures { MatchOption result ((rest : List ℕ) → ¬ IsQuotedPrefix bytes.now rest)
        (λ rest. IsQuotedPrefix bytes.now rest.now) }
{
    let mut rest = after(bytes, b"'")?;
    while let Some(more) = after_part(rest) {
        rest = more;
    }
    after(rest, b"'")
}

// What is after one byte of a value, as it is written between single quotes.
fn after_part(bytes: &[u8]) -> Option<&[u8]>
    ensures { MatchOption result ((rest : List ℕ) → ¬ IsPartPrefix bytes.now rest)
        (λ rest. IsPartPrefix bytes.now rest.now) }
{
    let (first, rest) = bytes.split_first()?;
    match *first {
        0 => None,
        b'\'' => after(rest, b"\\''"),
        _ => Some(rest),
    }
}
