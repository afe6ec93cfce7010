//! The line of a note.
ghost use Rattle.std.specs.Prelude.{◌≡◌, ◌==◌, ◌∷◌, ◌++◌, ℕ, List, IfSome, IfNone, OnOk};
ghost use Rattle.std.specs.List.{position};
ghost use Rattle.mail_notes.specs.Lines.{IsJobFileName, IsFlag, IsNotedJobText, IsNoteText, SpellsNote, flag_byte, noted_job_text, letter_of_note, rest_text};
ghost use Rattle.mail_notes.specs.Notes.{number_of_note};
ghost use Rattle.mail_notes.specs.inside.Spelling.{AreParts, one_note};
ghost use Rattle.mail_notes.specs.declared.note.Note.{Note};
ghost use Rattle.mail_notes.specs.declared.note.NotedJob.{NotedJob};

use crate::{Note, NotedJob};
use host_calls::Name;
use job_name::JobName;
use record_lines::{LineRecord, number_in};
use spool_model::UserName;
use std::alloc::AllocError;
use text_reader::digits_of;

// How many digits a number has.
const DIGITS: usize = 8;

impl LineRecord for Note {
    ghost spells = { SpellsNote };

    ghost spells_one = { one_note };

    fn read(line: &[u8]) -> Option<Self> {
        let [letter, b' ', rest @ ..] = line else {
            return None;
        };
        if rest.len() < DIGITS {
            return None;
        }
        let (digits, rest) = rest.split_at(DIGITS);
        let number = number_in(digits)?;
        note_in(*letter, number, rest)
    }

    fn write(&self, text: &mut Vec<u8>) -> Result<(), AllocError> {
        text.push(letter_of_note(self))?;
        text.push(b' ')?;
        text.extend_from_slice(&digits_of(number_of_note(self)))?;
        write_rest(self, text)?;
        Ok(())
    }
}

fn letter_of_note(note: &Note) -> u8
    ensures { result ≡ letter_of_note note.now }
{
    match note {
        Note::Noted(_) => b'N',
        Note::Sent(_) => b'S',
        Note::Dropped(_) => b'D',
    }
}

pub(crate) fn number_of_note(note: &Note) -> u32
    ensures { result ≡ number_of_note note.now }
{
    match note {
        Note::Noted(job) => job.number,
        Note::Sent(number) => *number,
        Note::Dropped(number) => *number,
    }
}

// The note of a line with this letter and number, where this comes after the number.
fn note_in(letter: u8, number: u32, rest: &[u8]) -> Option<Note>
    ensures some { IfSome result (IsNoteText letter number rest.now) }
    ensures none { IfNone result ((note : Note) → ¬ (IsNoteText letter number rest.now note)) }
{
    if letter == b'N' {
        let job = job_in(number, rest)?;
        return Some(Note::Noted(job));
    }
    if !rest.is_empty() {
        return None;
    }
    match letter {
        b'S' => Some(Note::Sent(number)),
        b'D' => Some(Note::Dropped(number)),
        _ => None,
    }
}

// The file, the flag and the user of a job that was seen, each after a space.
fn job_in(number: u32, rest: &[u8]) -> Option<NotedJob>
    ensures some { IfSome result (IsNotedJobText number rest.now) }
    ensures none { IfNone result ((job : NotedJob) → ¬ (IsNotedJobText number rest.now job)) }
{
    let parts = parts_in(rest)?;
    let file = file_of(number, parts.file)?;
    let always = flag_in(parts.flag)?;
    let user = UserName::of(parts.user)?;
    Some(NotedJob {
        number,
        file,
        always,
        user,
    })
}

// What is after the number of a job that was seen, each after a space.
#[derive(Clone, Copy)]
struct Parts<'a> {
    file: &'a [u8],
    flag: u8,
    user: &'a [u8],
}

fn parts_in(rest: &[u8]) -> Option<Parts<'_>>
    ensures some { IfSome result (λ parts. AreParts rest.now parts.file.now parts.flag parts.user.now) }
    ensures none { IfNone result ((file user : List ℕ) (flag : ℕ) → ¬ (AreParts rest.now file flag user)) }
{
    let after = after_space(rest)?;
    let end = space_in(after)?;
    let (file, tail) = after.split_at(end);
    let tail = tail_in(tail)?;
    Some(Parts {
        file,
        flag: tail.flag,
        user: tail.user,
    })
}

// What is after a space.
fn after_space(rest: &[u8]) -> Option<&[u8]>
    ensures some { IfSome result (λ after. rest.now ≡ 32 ∷ after.now) }
    ensures none { IfNone result ((after : List ℕ) → ¬ (rest.now ≡ 32 ∷ after)) }
{
    let [b' ', after @ ..] = rest else {
        return None;
    };
    Some(after)
}

// The flag and the user, each after a space.
#[derive(Clone, Copy)]
struct Tail<'a> {
    flag: u8,
    user: &'a [u8],
}

fn tail_in(rest: &[u8]) -> Option<Tail<'_>>
    ensures some { IfSome result (λ tail. rest.now ≡ 32 ∷ tail.flag ∷ 32 ∷ tail.user.now) }
    ensures none { IfNone result ((flag : ℕ) (user : List ℕ) → ¬ (rest.now ≡ 32 ∷ flag ∷ 32 ∷ user)) }
{
    let [b' ', flag, b' ', user @ ..] = rest else {
        return None;
    };
    Some(Tail { flag: *flag, user })
}

// The place of the first space.
fn space_in(bytes: &[u8]) -> Option<usize>
    ensures { result ≡ position (λ byte. byte == 32) bytes.now }
{
    bytes.iter().position(|byte| *byte == b' ')
}

// The file with this name, where it is that of the number's job.
fn file_of(number: u32, bytes: &[u8]) -> Option<Name>
    ensures name { IfSome result (λ name. name ≡ bytes.now) }
    ensures some { IfSome result (IsJobFileName number) }
    ensures none { IfNone result (¬ (IsJobFileName number bytes.now)) }
{
    let name = Name::of(bytes)?;
    let job = JobName::read(bytes)?;
    if job.number != number {
        return None;
    }
    Some(name)
}

fn flag_in(byte: u8) -> Option<bool>
    ensures some { IfSome result (λ always. byte ≡ flag_byte always) }
    ensures none { IfNone result (¬ (IsFlag byte)) }
{
    match byte {
        b'0' => Some(false),
        b'1' => Some(true),
        _ => None,
    }
}

fn flag_byte(always: bool) -> u8
    ensures { result ≡ flag_byte always }
{
    if always { b'1' } else { b'0' }
}

// Adds what is after the number.
fn write_rest(note: &Note, text: &mut Vec<u8>) -> Result<(), AllocError>
    ensures { OnOk result (text.new.items ≡ text.old.items ++ rest_text note.now) }
{
    if let Note::Noted(job) = note {
        write_job(job, text)?;
    }
    Ok(())
}

fn write_job(job: &NotedJob, text: &mut Vec<u8>) -> Result<(), AllocError>
    ensures { OnOk result (text.new.items ≡ text.old.items ++ noted_job_text job.now) }
{
    text.push(b' ')?;
    text.extend_from_slice(job.file.as_bytes())?;
    text.extend_from_slice(&[b' ', flag_byte(job.always), b' '])?;
    text.extend_from_slice(job.user.as_bytes())?;
    Ok(())
}
