//! The fields of a slot.
ghost use Rattle.std.specs.Prelude.{◌≡◌, ◌≤◌, ◌↔◌, IsTrue, unsigned_abs};
ghost use Rattle.start_journal.specs.Slots.{IsWritable, ending_byte, ending_status, ending_with, plain_fields};

use crate::Mark;
use crate::slot::SLOT;
use host_calls::{Ending, LAST_SECOND, is_clock_second};

/// What is in the fields of a slot, whether or not some mark has these.
#[derive(Clone, Copy, Debug, PartialEq, Eq)]
pub struct Fields {
    pub kind: u8,
    pub number: u32,
    pub queue: u8,
    pub ending: u8,
    pub status: u8,
    pub second: u64,
}

impl Fields {
    ghost use Rattle.std.specs.Prelude.{◌≢◌, IfSome, IfNone};
    ghost use Rattle.start_journal.specs.Slots.{SpellsFields, fields_of, mark_with};

    // The fields of a mark.
    pub(crate) fn of(mark: &Mark) -> Fields
        ensures { result ≡ fields_of mark.now }
    {
        match *mark {
            Mark::Removed(number) => plain_fields(b'R', number),
            Mark::Started {
                number,
                queue,
                second,
            } => Fields {
                queue,
                second: second.unsigned_abs(),
                ..plain_fields(b'S', number)
            },
            Mark::Ended { number, ending } => Fields {
                ending: ending_letter(ending),
                status: status_of(ending),
                ..plain_fields(b'E', number)
            },
            Mark::Interrupted(number) => plain_fields(b'I', number),
            Mark::Forgotten(number) => plain_fields(b'F', number),
            Mark::Batch(second) => Fields {
                second: second.unsigned_abs(),
                ..plain_fields(b'B', 0)
            },
        }
    }

    // The mark that has these fields, if there is one.
    pub(crate) fn mark(&self) -> Option<Mark>
        ensures mark { IfSome result (λ mark. IsWritable mark) }
        ensures fields { IfSome result (λ mark. fields_of mark ≡ self.now) }
        ensures none { IfNone result ((mark : Mark) → IsWritable mark → fields_of mark ≢ self.now) }
    {
        let mark = self.candidate()?;
        // No field may say more than the mark does.
        if is_writable(&mark) && Fields::of(&mark) == *self {
            Some(mark)
        } else {
            None
        }
    }

    // The only mark that can have these fields.
    fn candidate(&self) -> Option<Mark>
        ensures { result ≡ mark_with self.now }
    {
        if self.second > LAST_SECOND as u64 {
            return None;
        }
        let number = self.number;
        let second = self.second as i64;
        match self.kind {
            b'R' => Some(Mark::Removed(number)),
            b'S' => Some(Mark::Started {
                number,
                queue: self.queue,
                second,
            }),
            b'E' => Some(Mark::Ended {
                number,
                ending: ending_in_mark(self.ending, self.status)?,
            }),
            b'I' => Some(Mark::Interrupted(number)),
            b'F' => Some(Mark::Forgotten(number)),
            b'B' => Some(Mark::Batch(second)),
            _ => None,
        }
    }

    // Makes the slot one with these fields, its gate open.
    pub(crate) fn write(&self, slot: &mut [u8; SLOT])
        requires { self.now.second ≤ unsigned_abs LAST_SECOND }
        ensures { SpellsFields slot.new self.now }
    {
        slot[0] = b'+';
        slot[1] = self.kind;
        text_reader::write_hex(&mut slot[2..10], self.number as u64);
        slot[10] = self.queue;
        slot[11] = self.ending;
        text_reader::write_hex(&mut slot[12..14], self.status as u64);
        text_reader::write_hex(&mut slot[14..30], self.second);
        slot[30] = b'.';
        slot[31] = b'\n';
    }

    // The fields of a slot, if it has the form of one whose gate is open.
    pub(crate) fn read(slot: &[u8; SLOT]) -> Option<Fields>
        ensures fields { IfSome result (SpellsFields slot.now) }
        ensures none { IfNone result ((fields : Fields) → ¬ (SpellsFields slot.now fields)) }
    {
        if slot[0] != b'+' || slot[30] != b'.' || slot[31] != b'\n' {
            return None;
        }
        let number = text_reader::read_hex(&slot[2..10])?;
        let status = text_reader::read_hex(&slot[12..14])?;
        let second = text_reader::read_hex(&slot[14..30])?;
        Some(Fields {
            kind: slot[1],
            number: number as u32,
            queue: slot[10],
            ending: slot[11],
            status: status as u8,
            second,
        })
    }
}

// The fields of a mark that says no more than its kind and a number.
fn plain_fields(kind: u8, number: u32) -> Fields
    ensures { result ≡ plain_fields kind number }
{
    Fields {
        kind,
        number,
        queue: b'-',
        ending: b'-',
        status: 0,
        second: 0,
    }
}

fn ending_letter(ending: Ending) -> u8
    ensures { result ≡ ending_byte ending }
{
    match ending {
        Ending::Exit(_) => b'x',
        Ending::Signal(_) => b's',
        Ending::NotStarted => b'n',
    }
}

fn status_of(ending: Ending) -> u8
    ensures { result ≡ ending_status ending }
{
    match ending {
        Ending::Exit(status) => status,
        Ending::Signal(signal) => signal,
        Ending::NotStarted => 0,
    }
}

fn ending_in_mark(letter: u8, status: u8) -> Option<Ending>
    ensures { result ≡ ending_with letter status }
{
    match letter {
        b'x' => Some(Ending::Exit(status)),
        b's' => Some(Ending::Signal(status)),
        b'n' => Some(Ending::NotStarted),
        _ => None,
    }
}

fn is_writable(mark: &Mark) -> bool
    ensures { IsTrue result ↔ IsWritable mark.now }
{
    match *mark {
        Mark::Removed(number) => number != 0,
        Mark::Started {
            number,
            queue,
            second,
        } => number != 0 && queue.is_ascii_alphabetic() && is_clock_second(second),
        Mark::Ended { number, .. } => number != 0,
        Mark::Interrupted(number) => number != 0,
        Mark::Forgotten(number) => number != 0,
        Mark::Batch(second) => is_clock_second(second),
    }
}
