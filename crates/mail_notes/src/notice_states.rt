//! What the notes say of each job, by its number.
ghost use Rattle.std.specs.Prelude.{◌≡◌, ◌∷◌, ◌++◌, [], ℕ, List, IfOk, OnOk};
ghost use Rattle.std.specs.List.{filter_map};
ghost use Rattle.std.specs.Option.{option_copied};
ghost use Rattle.std.specs.Bool.{Decides};
ghost use Rattle.std.specs.BTreeMap.{IsOrdered, get, values};
ghost use Rattle.std.specs.Ordering.{nat_cmp};
ghost use Rattle.mail_notes.specs.Book.{AreAwaitingNotice, AreStatesOfNotes, IsNoticeStateAt, note_may_follow, notice_state_after, waiting_job};
ghost use Rattle.mail_notes.specs.Notes.{IsNoteAllowed};
ghost use Rattle.mail_notes.specs.declared.note.Note.{Note};

use crate::line::number_of_note;
use crate::{Note, NotedJob};
use record_lines::Keeper;
use std::alloc::{AllocError, Global};
use std::collections::BTreeMap;

/// What the notes say of a job that was noted.
#[derive(Clone, Copy)]
pub enum NoticeState {
    /// It waits for its notice.
    Waits(NotedJob),
    /// Its notice was sent or dropped.
    Closed,
}

/// What the notes say of each job that was noted, by its number.
#[derive(Drop)]
pub struct NoticeStates {
    states: BTreeMap<u32, NoticeState>,
}

impl NoticeStates {
    /// The book of no notes.
    pub fn new(alloc: Global) -> NoticeStates
        ensures { AreStatesOfNotes [] result }
    {
        NoticeStates {
            states: BTreeMap::new(alloc),
        }
    }

    /// The state of the job of the number, if some note is of it.
    pub fn state_of(&self, number: u32) -> Option<&NoticeState>
        ensures { (notes : List Note) → AreStatesOfNotes notes self.now
            → IsNoticeStateAt notes number (option_copied result) }
    {
        self.states.get(&number)
    }

    /// The jobs that wait for their notices, by number.
    pub fn waiting(&self, alloc: Global) -> Result<Vec<NotedJob>, AllocError>
        ensures { IfOk result (λ jobs. (notes : List Note) → AreStatesOfNotes notes self.now
            → AreAwaitingNotice notes jobs.items) }
    {
        let states = notice_states_in(alloc, &self.states)?;
        let jobs = waiting_in(alloc, states.as_slice())?;
        Ok(jobs)
    }
}

// The standings, by number.
fn notice_states_in(
    alloc: Global,
    states: &BTreeMap<u32, NoticeState>,
) -> Result<Vec<NoticeState>, AllocError>
    ensures items { IfOk result (λ list. list.items ≡ values states.now) }
    ensures ordered { IsOrdered nat_cmp states.now }
{
    states.values().copied().collect(alloc)
}

// The jobs of those that wait, in their order.
fn waiting_in(alloc: Global, states: &[NoticeState]) -> Result<Vec<NotedJob>, AllocError>
    ensures { IfOk result (λ jobs. jobs.items ≡ filter_map waiting_job states.now) }
{
    states
        .iter()
        .filter_map(|notice_state| waiting_job(notice_state))
        .collect(alloc)
}

// The job, where it waits.
fn waiting_job(notice_state: &NoticeState) -> Option<NotedJob>
    ensures { result ≡ waiting_job notice_state.now }
{
    match notice_state {
        NoticeState::Waits(job) => Some(*job),
        NoticeState::Closed => None,
    }
}

impl Keeper<Note> for NoticeStates {
    ghost tells = { AreStatesOfNotes };

    ghost legal = { IsNoteAllowed };

    fn allows(&self, next: &Note) -> bool {
        note_may_follow(self.states.get(&number_of_note(next)), next)
    }

    fn add(&mut self, next: &Note) -> Result<(), AllocError> {
        let notice_state = notice_state_after(next);
        self.states.insert(number_of_note(next), notice_state)?;
        Ok(())
    }
}

// Whether the note may come where its job is in this state.
fn note_may_follow(notice_state: Option<&NoticeState>, note: &Note) -> bool
    ensures { result ≡ note_may_follow (option_copied notice_state.entry) note.now }
{
    match (notice_state, note) {
        (None, Note::Noted(_)) => true,
        (Some(NoticeState::Waits(_)), Note::Sent(_) | Note::Dropped(_)) => true,
        _ => false,
    }
}

// The state of the job after the note.
fn notice_state_after(note: &Note) -> NoticeState
    ensures { result ≡ notice_state_after note.now }
{
    match note {
        Note::Noted(job) => NoticeState::Waits(*job),
        Note::Sent(_) | Note::Dropped(_) => NoticeState::Closed,
    }
}
