//! The notice of a job's end.
ghost use Rattle.std.specs.Prelude.{◌≡◌, ◌++◌, IfOk, OnOk};
ghost use Rattle.listing_text.specs.Lines.{turn_text};
ghost use Rattle.mail_notes.specs.Notices.{guard_line, mail_line, notice_text, out_lines};

use crate::NotedJob;
use host_calls::Bytes;
use job_script::put_quoted;
use listing_text::TurnStepText;
use std::alloc::{AllocError, Global};

/// How nice a notice is.
pub const NOTICE_NICE: u8 = 19;

/// The notice of the job's end, for this mail program.
pub fn notice_text(
    alloc: Global,
    program: &[u8],
    job: &NotedJob,
    end: &TurnStepText,
) -> Result<Bytes, AllocError>
    ensures { IfOk result (λ text. text ≡ notice_text program.now job.now (turn_text end.now)) }
{
    let mut text = Vec::new(alloc);
    put_out(&mut text, job)?;
    let line = format!(in alloc; "{end}")?;
    put_mail(&mut text, program, job.user.as_bytes(), line.as_bytes())?;
    Ok(Bytes::from(text))
}

// Puts the lines that set the output of the job.
fn put_out(text: &mut Vec<u8>, job: &NotedJob) -> Result<(), AllocError>
    ensures { OnOk result (text.new.items ≡ text.old.items ++ out_lines job.now) }
{
    text.extend_from_slice(b"#!/bin/sh\n# at notice\nout=\"${0%/*}.out/")?;
    text.extend_from_slice(job.file.as_bytes())?;
    text.extend_from_slice(b"\"\n")?;
    text.extend_from_slice(guard_line(job.always))?;
    Ok(())
}

fn guard_line(always: bool) -> &'static [u8]
    ensures { result.now ≡ guard_line always }
{
    if always {
        b""
    } else {
        b"test -s \"$out\" || exit 0\n"
    }
}

// Puts the line that hands the line and the output to the program.
fn put_mail(text: &mut Vec<u8>, program: &[u8], user: &[u8], line: &[u8]) -> Result<(), AllocError>
    ensures { OnOk result (text.new.items ≡ text.old.items ++ mail_line program.now user.now line.now) }
{
    text.extend_from_slice(b"{ echo '")?;
    text.extend_from_slice(line)?;
    text.extend_from_slice(b"'; cat \"$out\"; } | ")?;
    put_quoted(text, program)?;
    text.push(b' ')?;
    put_quoted(text, user)?;
    text.push(b'\n')?;
    Ok(())
}
