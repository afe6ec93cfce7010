//! The new jobs are noted.
ghost use Rattle.std.specs.Prelude.{◌≡◌, ◌++◌, IsTrue, OnOk};
ghost use Rattle.std.specs.List.{All};
ghost use Rattle.host_calls.specs.Directory.{IsInNoImage};
ghost use Rattle.host_calls.specs.Session.{IsInside};
ghost use Rattle.mail_notes.specs.Lines.{IsNotedJob, note_line, notes_text};
ghost use Rattle.mail_notes.specs.Names.{mail_temp};
ghost use Rattle.mail_notes.specs.declared.note.Note.TheVariants.{Noted};
ghost use Rattle.mail_session.specs.News.{noting_of};
ghost use Rattle.mail_session.specs.NewNotes.{Notes};

use crate::line::add_note_line;
use crate::places::place_notes;
use host_calls::{Host, HostFault};
use mail_notes::{Note, NotedJob};
use std::alloc::{AllocError, Global};

/// Puts the lines of the notes that these jobs were seen after the text.
pub fn add_note_lines(text: &mut Vec<u8>, new_jobs: &[NotedJob]) -> Result<(), AllocError>
    requires { All IsNotedJob new_jobs.now }
    ensures { OnOk result (text.new.items ≡ text.old.items ++ notes_text (noting_of new_jobs.now)) }
{
    for job in new_jobs {
        add_noted(text, job)?;
    }
    Ok(())
}

fn add_noted(text: &mut Vec<u8>, job: &NotedJob) -> Result<(), AllocError>
    requires { IsNotedJob job.now }
    ensures { OnOk result (text.new.items ≡ text.old.items ++ note_line (Noted job.now)) }
{
    let note = Note::Noted(*job);
    add_note_line(text, &note)
}

/// Gives the file of notes this text, which ends with the notes of these jobs, at once. Nothing is done where there are
/// none.
pub fn note_news<H: Host>(
    alloc: Global,
    host: &mut H,
    new_jobs: &[NotedJob],
    text: &[u8],
) -> Result<(), HostFault>
    requires inside { IsInside (H.session host.old) }
    requires no_temp { IsTrue H.tells → IsInNoImage (H.world host.old).now.directory mail_temp }
    ensures { Notes H.tells (H.session host.old) (H.session host.new) (H.world host.old) (H.world host.new)
        new_jobs.now text.now result }
{
    if new_jobs.is_empty() {
        return Ok(());
    }
    place_notes(alloc, host, text)
}
