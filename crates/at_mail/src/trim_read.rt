//! All notes of a directory are read.
ghost use Rattle.std.specs.Prelude.{◌≡◌, ◌≢◌, Err, IfErr, IfOk, IsTrue, Some};
ghost use Rattle.std.specs.FinMap as map;
ghost use Rattle.std.specs.List.{All};
ghost use Rattle.host_calls.specs.Damages.{IfDamaged};
ghost use Rattle.host_calls.specs.Session.{CallsInside, IsInside};
ghost use Rattle.host_calls.specs.StoreFaults.{IsReadingFault};
ghost use Rattle.host_calls.specs.World.{reading};
ghost use Rattle.mail_notes.specs.Book.{AreStatesOfNotes};
ghost use Rattle.mail_notes.specs.Lines.{SpellsNote};
ghost use Rattle.mail_notes.specs.Names.{mail_file};
ghost use Rattle.mail_session.specs.SessionOutcome.{GivesNotes};
ghost use Rattle.mail_session.specs.ReadNotes.{IsDamageAt, IsDamageOf};
ghost use Rattle.record_lines.specs.Lines.{CanBeSpelled};

use host_calls::{Damage, Host, StoreFault};
use mail_notes::{Note, NoticeStates, mail_name};
use record_lines::{LinesFault, read_lines};
use std::alloc::Global;
use whole_file::content;

// The notes, in order, and what they say of each job.
#[derive(Drop)]
pub(crate) struct AllNotes {
    pub(crate) notes: Vec<Note>,
    pub(crate) notice_states: NoticeStates,
}

// The notes of the directory. Its file is damaged at the first byte of its first bad line.
pub(crate) fn all_notes<H: Host>(alloc: Global, host: &mut H) -> Result<AllNotes, StoreFault>
    requires { IsInside (H.session host.old) }
    ensures inside { CallsInside StoreFault.FileFault (H.session host.old) (H.session host.new) result }
    ensures of_reading { IfErr result IsReadingFault }
    ensures looks { IsTrue H.tells → H.world host.new ≡ H.world host.old }
    ensures told { IfOk result (λ read. AreStatesOfNotes read.notes.items read.notice_states) }
    ensures spelled { IfOk result (λ read. All (CanBeSpelled SpellsNote) read.notes.items) }
    ensures gives { IsTrue H.tells → IfOk result (λ read.
        GivesNotes (map.get (reading (H.world host.old)) mail_file) read.notes.items) }
    ensures damaged { IsTrue H.tells → IfDamaged StoreFault.Damaged
        (IsDamageOf (map.get (reading (H.world host.old)) mail_file)) result }
{
    match content(alloc, host, &mail_name())? {
        Some(bytes) => all_notes_in(alloc, bytes.as_slice()),
        None => Ok(AllNotes {
            notes: Vec::new(alloc),
            notice_states: NoticeStates::new(alloc),
        }),
    }
}

// The notes of a file with these bytes.
fn all_notes_in(alloc: Global, bytes: &[u8]) -> Result<AllNotes, StoreFault>
    ensures of_reading { IfErr result IsReadingFault }
    ensures no_fault { result ≢ Err StoreFault.FileFault }
    ensures told { IfOk result (λ read. AreStatesOfNotes read.notes.items read.notice_states) }
    ensures spelled { IfOk result (λ read. All (CanBeSpelled SpellsNote) read.notes.items) }
    ensures gives { IfOk result (λ read. GivesNotes (Some bytes.now) read.notes.items) }
    ensures damaged { IfDamaged StoreFault.Damaged (IsDamageAt bytes.now) result }
{
    let mut notice_states = NoticeStates::new(alloc);
    match read_lines::<Note, NoticeStates>(alloc, bytes, &mut notice_states) {
        Ok(notes) => Ok(AllNotes {
            notes,
            notice_states,
        }),
        Err(LinesFault::At(place)) => {
            let damage = Damage::at(mail_name(), bytes, place);
            Err(StoreFault::Damaged(damage))
        }
        Err(LinesFault::Memory) => Err(StoreFault::Memory),
    }
}
