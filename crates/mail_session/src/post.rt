//! What is due is noted and sent, one after another.
ghost use Rattle.std.specs.Prelude.{◌≡◌, ◌+◌, ◌≤◌, ◌++◌, ◌∷◌, [], IsTrue, OnOk, vec_capacity, vec_len};
ghost use Rattle.host_calls.specs.Directory.{IsInNoImage};
ghost use Rattle.host_calls.specs.Session.{IsInside};
ghost use Rattle.mail_notes.specs.Lines.{note_line};
ghost use Rattle.mail_notes.specs.Names.{mail_temp};
ghost use Rattle.mail_session.specs.Dues.{note_of};
ghost use Rattle.mail_session.specs.DueNotices.{Posts, kids_of};

use crate::NoticeDue;
use crate::due::note_of;
use crate::line::add_note_line;
use crate::places::place_notes;
use crate::send::send;
use daemon_turn::Kid;
use host_calls::{Child, Host, HostFault};
use listing_text::TurnStepText;
use mail_notes::{NotedJob, notice_text};
use std::alloc::{AllocError, Global};

/// Notes what is due, in order, each after the notes of the text, and sends each notice once its note is written. The
/// child of a notice is a child. Room for what is kept of a notice is had before it is sent.
pub fn post_all<H: Host>(
    alloc: Global,
    host: &mut H,
    program: &[u8],
    due_notices: &[NoticeDue],
    text: &mut Vec<u8>,
    kids: &mut Vec<Kid>,
    sent: &mut Vec<u32>,
) -> Result<(), HostFault>
    requires inside { IsInside (H.session host.old) }
    requires no_temp { IsTrue H.tells → IsInNoImage (H.world host.old).now.directory mail_temp }
    ensures { Posts program.now H.tells (H.session host.old) (H.session host.new)
        (H.world host.old) (H.world host.new) due_notices.now text.old.items text.new.items
        kids.old.items kids.new.items sent.old.items sent.new.items result }
{
    for due in due_notices {
        post(alloc, host, program, due, text, kids, sent)?;
    }
    Ok(())
}

// Notes one thing that is due, and hands its notice over, where it is one.
fn post<H: Host>(
    alloc: Global,
    host: &mut H,
    program: &[u8],
    due: &NoticeDue,
    text: &mut Vec<u8>,
    kids: &mut Vec<Kid>,
    sent: &mut Vec<u32>,
) -> Result<(), HostFault>
    requires inside { IsInside (H.session host.old) }
    requires no_temp { IsTrue H.tells → IsInNoImage (H.world host.old).now.directory mail_temp }
    ensures { Posts program.now H.tells (H.session host.old) (H.session host.new)
        (H.world host.old) (H.world host.new) (due.now ∷ []) text.old.items text.new.items
        kids.old.items kids.new.items sent.old.items sent.new.items result }
{
    kids.reserve(1)?;
    sent.reserve(1)?;
    add_note(text, due)?;
    match due {
        NoticeDue::Send(job, end) => {
            let script = notice_text(alloc, program, job, end)?;
            let child = send(alloc, host, job.number, script.as_slice(), text.as_slice())?;
            sent.push_reserved(job.number);
            keep_kid(kids, job.number, child);
            Ok(())
        }
        NoticeDue::Drop(_) => place_notes(alloc, host, text.as_slice()),
    }
}

// Puts the line of the note after the text.
fn add_note(text: &mut Vec<u8>, due: &NoticeDue) -> Result<(), AllocError>
    ensures { OnOk result (text.new.items ≡ text.old.items ++ note_line (note_of due.now)) }
{
    let note = note_of(due);
    add_note_line(text, &note)
}

// Keeps the child that came of the number's notice, if one did.
fn keep_kid(kids: &mut Vec<Kid>, number: u32, child: Option<Child>)
    requires { vec_len kids.old + 1 ≤ vec_capacity kids.old }
    ensures { kids.new.items ≡ kids.old.items ++ kids_of number child }
{
    if let Some(child) = child {
        kids.push_reserved(Kid { number, child });
    }
}
