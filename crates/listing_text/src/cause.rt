//! How a command ended, and the line that says why.
ghost use Rattle.std.specs.Prelude.{◌≡◌, IfOk};
ghost use Rattle.listing_text.specs.Cause.{is_done_cause, code_of, damage_text, cause_text, cause_line_of, fault_line_of};

use crate::Refusal;
use host_calls::{Bytes, Damage};
use std::alloc::{AllocError, Global};

/// How a command ended.
#[derive(Clone, Copy)]
pub enum Cause {
    /// All of it was done.
    Done,
    /// It was refused.
    Refused(Refusal),
    /// A call on the spool directory failed.
    FileFault,
    /// The commands could not be read.
    InputFault,
    /// The output could not be written.
    OutputFault,
    /// Another program holds the spool.
    Busy,
    /// There was no memory for it.
    Memory,
    /// A file of the spool is damaged.
    Damaged(Damage),
    /// The turns were used up before every job ended.
    StillRunning,
    /// The spool has faults, and each was told.
    Faulty,
}

impl Cause {
    /// Whether all of it was done, so that no line is printed.
    pub fn is_done(&self) -> bool
        ensures { result ≡ is_done_cause self.now }
    {
        matches!(self, Cause::Done)
    }

    /// The exit status.
    pub fn code(&self) -> u8
        ensures { result ≡ code_of self.now }
    {
        match self {
            Cause::Done => 0,
            Cause::Refused(_) => 1,
            Cause::FileFault => 2,
            Cause::InputFault => 3,
            Cause::OutputFault => 4,
            Cause::Busy => 5,
            Cause::Memory => 6,
            Cause::Damaged(_) => 7,
            Cause::StillRunning => 8,
            Cause::Faulty => 9,
        }
    }
}

/// The line that says why the tool failed. It is empty where the tool did all.
pub fn cause_line(alloc: Global, tool: &str, cause: &Cause) -> Result<Bytes, AllocError>
    ensures { IfOk result (λ line. line ≡ cause_line_of tool.now cause.now) }
{
    if cause.is_done() {
        return Ok(Bytes::from(Vec::new(alloc)));
    }
    let text = cause_text(alloc, cause)?;
    let mut line = format!(in alloc; "{tool}: ")?.into_bytes();
    line.extend_from_slice(&text)?;
    line.push(b'\n')?;
    Ok(Bytes::from(line))
}

fn cause_text(alloc: Global, cause: &Cause) -> Result<Vec<u8>, AllocError>
    ensures { IfOk result (λ text. text.items ≡ cause_text cause.now) }
{
    match cause {
        Cause::Done => Ok(Vec::new(alloc)),
        Cause::Refused(refusal) => Ok(refusal.to_string(alloc)?.into_bytes()),
        Cause::FileFault => Vec::from_slice(alloc, b"spool fault"),
        Cause::InputFault => Vec::from_slice(alloc, b"input fault"),
        Cause::OutputFault => Vec::from_slice(alloc, b"output fault"),
        Cause::Busy => Vec::from_slice(alloc, b"spool busy"),
        Cause::Memory => Vec::from_slice(alloc, b"out of memory"),
        Cause::Damaged(damage) => text_of_damage(alloc, damage),
        Cause::StillRunning => Vec::from_slice(alloc, b"jobs still running"),
        Cause::Faulty => Vec::from_slice(alloc, b"spool has faults"),
    }
}

/// The line of a file that is damaged, and at which byte.
pub fn fault_line(alloc: Global, damage: &Damage) -> Result<Bytes, AllocError>
    ensures { IfOk result (λ line. line ≡ fault_line_of damage.now) }
{
    let mut line = text_of_damage(alloc, damage)?;
    line.push(b'\n')?;
    Ok(Bytes::from(line))
}

fn text_of_damage(alloc: Global, damage: &Damage) -> Result<Vec<u8>, AllocError>
    ensures { IfOk result (λ text. text.items ≡ damage_text damage.now) }
{
    let offset = damage.offset.to_string(alloc)?;
    let mut text = Vec::from_slice(alloc, damage.name.as_bytes())?;
    text.extend_from_slice(b" damaged at ")?;
    text.extend_from_slice(offset.as_bytes())?;
    Ok(text)
}
