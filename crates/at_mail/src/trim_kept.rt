//! Which notes a trim keeps.
ghost use Rattle.std.specs.Prelude.{◌≡◌, List, not};
ghost use Rattle.mail_notes.specs.Book.{AreStatesOfNotes};
ghost use Rattle.mail_notes.specs.Notes.{has_closing_note, number_of_note};
ghost use Rattle.mail_notes.specs.declared.note.Note.{Note};
ghost use Rattle.at_mail.specs.TrimmedNotes.{is_live_in, is_over, stays, trimmed};

use mail_notes::{Note, NoticeState, NoticeStates};
use spool_store::Store;

// Drops the notes of jobs that are over and whose notice was sent or dropped.
pub(crate) fn keep_notes(store: &Store, notice_states: &NoticeStates, notes: &mut Vec<Note>)
    ensures { AreStatesOfNotes notes.old.items notice_states.now
        → notes.new.items ≡ trimmed store.now.table notes.old.items }
{
    notes.retain(|note| stays(store, notice_states, note));
}

fn stays(store: &Store, notice_states: &NoticeStates, note: &Note) -> bool
    ensures { (notes : List Note) → AreStatesOfNotes notes notice_states.now
        → result ≡ stays store.now.table notes note.now }
{
    let number = number_of_kept_note(note);
    is_open(notice_states, number) || !is_over(store, number)
}

fn number_of_kept_note(note: &Note) -> u32
    ensures { result ≡ number_of_note note.now }
{
    match note {
        Note::Noted(job) => job.number,
        Note::Sent(number) => *number,
        Note::Dropped(number) => *number,
    }
}

// Whether no notice of the number was sent or dropped.
fn is_open(notice_states: &NoticeStates, number: u32) -> bool
    ensures { (notes : List Note) → AreStatesOfNotes notes notice_states.now
        → result ≡ not (has_closing_note number notes) }
{
    match notice_states.state_of(number) {
        Some(NoticeState::Closed) => false,
        Some(NoticeState::Waits(_)) => true,
        None => true,
    }
}

// Whether the number was drawn and its job is not live.
fn is_over(store: &Store, number: u32) -> bool
    ensures { result ≡ is_over store.now.table number }
{
    number <= store.last() && !is_live_number(store, number)
}

fn is_live_number(store: &Store, number: u32) -> bool
    ensures { result ≡ is_live_in store.now.table number }
{
    match store.row(number) {
        Some(_) => true,
        None => false,
    }
}
