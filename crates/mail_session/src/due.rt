//! What is due of a job that was noted.
ghost use Rattle.std.specs.Prelude.{◌≡◌};
ghost use Rattle.mail_notes.specs.Lines.{IsNote};
ghost use Rattle.mail_notes.specs.declared.note.Note.TheVariants.{Sent};
ghost use Rattle.mail_session.specs.Dues.{note_of};

use listing_text::TurnStepText;
use mail_notes::{Note, NotedJob};

/// What is due of a job that was noted and is no longer live.
#[derive(Clone, Copy)]
pub enum NoticeDue {
    /// Its notice, with this end.
    Send(NotedJob, TurnStepText),
    /// That it has none.
    Drop(u32),
}

// The note by which it is done.
pub(crate) fn note_of(due: &NoticeDue) -> Note
    ensures note { result ≡ note_of due.now }
    ensures can { IsNote result }
{
    match due {
        NoticeDue::Send(job, _) => sent(job.number),
        NoticeDue::Drop(number) => Note::Dropped(*number),
    }
}

// That the notice of the number was sent.
fn sent(number: u32) -> Note
    ensures note { result ≡ Sent number }
    ensures can { IsNote result }
{
    Note::Sent(number)
}
