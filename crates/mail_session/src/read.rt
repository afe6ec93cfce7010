//! The notes of a directory are read.
ghost use Rattle.std.specs.Prelude.{◌≡◌, ◌≢◌, Err, IfErr, IfOk, IsTrue};
ghost use Rattle.std.specs.FinMap as map;
ghost use Rattle.host_calls.specs.Damages.{IfDamaged};
ghost use Rattle.host_calls.specs.Session.{CallsInside, IsInside};
ghost use Rattle.host_calls.specs.World.{reading};
ghost use Rattle.mail_notes.specs.Names.{mail_file};
ghost use Rattle.mail_session.specs.ReadNotes.{IsReadBook, IsDamageAt, IsDamageOf, IsTextOf};
ghost use Rattle.host_calls.specs.StoreFaults.{IsReadingFault};

use host_calls::{Bytes, Damage, Host};
use mail_notes::{Note, NoticeStates, mail_name};
use record_lines::{LinesFault, read_lines};
use spool_store::StoreFault;
use std::alloc::Global;
use whole_file::content;

/// The text of the notes, and what they say of each job.
#[derive(Drop)]
pub struct ReadNotes {
    pub text: Vec<u8>,
    pub notice_states: NoticeStates,
}

/// The notes of the directory. Its file is damaged at the first byte of its first bad line.
pub fn read_notes<H: Host>(alloc: Global, host: &mut H) -> Result<ReadNotes, StoreFault>
    requires { IsInside (H.session host.old) }
    ensures inside { CallsInside StoreFault.FileFault (H.session host.old) (H.session host.new) result }
    ensures of_reading { IfErr result IsReadingFault }
    ensures looks { IsTrue H.tells → H.world host.new ≡ H.world host.old }
    ensures notes { IfOk result (λ read. IsReadBook read.text.items read.notice_states) }
    ensures text { IsTrue H.tells → IfOk result (λ read.
        IsTextOf (map.get (reading (H.world host.old)) mail_file) read.text.items) }
    ensures damaged { IsTrue H.tells → IfDamaged StoreFault.Damaged
        (IsDamageOf (map.get (reading (H.world host.old)) mail_file)) result }
{
    match content(alloc, host, &mail_name())? {
        Some(bytes) => notes_in_file(alloc, bytes),
        None => Ok(ReadNotes {
            text: Vec::new(alloc),
            notice_states: NoticeStates::new(alloc),
        }),
    }
}

// The notes of a file with these bytes.
fn notes_in_file(alloc: Global, bytes: Bytes) -> Result<ReadNotes, StoreFault>
    ensures of_reading { IfErr result IsReadingFault }
    ensures no_fault { result ≢ Err StoreFault.FileFault }
    ensures notes { IfOk result (λ read. IsReadBook read.text.items read.notice_states) }
    ensures text { IfOk result (λ read. read.text.items ≡ bytes) }
    ensures damaged { IfDamaged StoreFault.Damaged (IsDamageAt bytes) result }
{
    let mut notice_states = NoticeStates::new(alloc);
    match read_lines::<Note, NoticeStates>(alloc, bytes.as_slice(), &mut notice_states) {
        Ok(_) => Ok(ReadNotes {
            text: bytes.into_vec(),
            notice_states,
        }),
        Err(LinesFault::At(place)) => {
            let damage = Damage::at(mail_name(), bytes.as_slice(), place);
            Err(StoreFault::Damaged(damage))
        }
        Err(LinesFault::Memory) => Err(StoreFault::Memory),
    }
}
