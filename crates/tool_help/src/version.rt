//! What `--version` prints.
ghost use Rattle.std.specs.Prelude.{◌≡◌, ◌≤◌, ◌++◌, IfOk, OnOk, length, option_copied};
ghost use Rattle.tool_help.specs.Version.{commit_digits, headed_line, is_commit_digit, is_record_of, proof_of, proved_by, value_after, version_of};

use caller_environment::ToolName;
use host_calls::Bytes;
use std::alloc::{AllocError, Global};

/// The version of these sources.
pub const VERSION: &str = "0.1";

// How many digits of a commit are shown.
const SHORT_COMMIT: usize = 12;

/// What `--version` of a tool prints: the version, and the commit and the toolchain that the record of the program's proof
/// has. Without such a record, or with one that lacks either, the program is said not to be proved.
pub fn version_text(
    alloc: Global,
    tool: ToolName,
    proof_record: Option<&[u8]>,
) -> Result<Bytes, AllocError>
    ensures { IfOk result (λ text. text ≡ version_of tool (option_copied proof_record.entry)) }
{
    let mut text = Vec::from_slice(alloc, tool.as_str().as_bytes())?;
    text.extend_from_slice(b" (Coefhird) ")?;
    text.extend_from_slice(VERSION.as_bytes())?;
    text.push(b'\n')?;
    add_proof(&mut text, proof_record)?;
    text.push(b'\n')?;
    Ok(Bytes::from(text))
}

/// Whether the record is of the program whose checksum by SHA-256 is written so.
pub fn is_record_of(proof_record: &[u8], checksum: &[u8]) -> bool
    ensures { result ≡ is_record_of proof_record.now checksum.now }
{
    match value_after(proof_record, b"sha256 ") {
        Some(value) => value == checksum,
        None => false,
    }
}

// Adds what the record says of the proof.
fn add_proof(text: &mut Vec<u8>, proof_record: Option<&[u8]>) -> Result<(), AllocError>
    ensures { OnOk result (text.new.items ≡ text.old.items ++ proof_of (option_copied proof_record.entry)) }
{
    let Some(proof_record) = proof_record else {
        return text.extend_from_slice(b"not proved");
    };
    match (
        value_after(proof_record, b"commit "),
        value_after(proof_record, b"toolchain "),
    ) {
        (Some(commit), Some(toolchain)) => add_parts(text, commit, toolchain),
        _ => text.extend_from_slice(b"not proved"),
    }
}

// Adds the commit, with its first digits alone, and the toolchain.
fn add_parts(text: &mut Vec<u8>, commit: &[u8], toolchain: &[u8]) -> Result<(), AllocError>
    ensures { OnOk result (text.new.items ≡ text.old.items ++ proved_by commit.now toolchain.now) }
{
    let digits = commit_digits(commit);
    text.extend_from_slice(b"commit ")?;
    text.extend_from_slice(&commit[..digits.min(SHORT_COMMIT)])?;
    text.extend_from_slice(&commit[digits..])?;
    text.extend_from_slice(b", proved with ")?;
    text.extend_from_slice(toolchain)
}

// How many digits a commit begins with.
fn commit_digits(commit: &[u8]) -> usize
    ensures count { result ≡ commit_digits commit.now }
    ensures within { result ≤ length commit.now }
{
    commit
        .iter()
        .take_while(|byte| is_commit_digit(**byte))
        .count()
}

fn is_commit_digit(byte: u8) -> bool
    ensures { result ≡ is_commit_digit byte }
{
    byte.is_ascii_digit() || (b'a' <= byte && byte <= b'f')
}

// What follows such a head in the first line that begins with it.
fn value_after<'a>(proof_record: &'a [u8], head: &[u8]) -> Option<&'a [u8]>
    ensures { option_copied result ≡ value_after head.now proof_record.now }
{
    let line = headed_line(proof_record, head)?;
    line.strip_prefix(head)
}

// The first line that begins with such a head.
fn headed_line<'a>(proof_record: &'a [u8], head: &[u8]) -> Option<&'a [u8]>
    ensures { option_copied result ≡ headed_line head.now proof_record.now }
{
    proof_record
        .split(|byte| *byte == b'\n')
        .find(|line| line.starts_with(head))
}
