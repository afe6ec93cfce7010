//! The notes that stay take the place of those that were read.
ghost use Rattle.std.specs.Prelude.{IsTrue, OnOk};
ghost use Rattle.std.specs.List.{All};
ghost use Rattle.host_calls.specs.Session.{CallsInside, IsInside};
ghost use Rattle.mail_notes.specs.Book.{AreStatesOfNotes};
ghost use Rattle.mail_notes.specs.Lines.{SpellsNote, notes_text};
ghost use Rattle.mail_notes.specs.Names.{mail_file, mail_temp};
ghost use Rattle.at_mail.specs.TrimmedNotes.{trimmed};
ghost use Rattle.at_mail.specs.inside.TrimWrite.{IsTrimWritten};
ghost use Rattle.record_lines.specs.Lines.{CanBeSpelled};
ghost use Rattle.whole_file.specs.Others.{ChangesFiles};
ghost use Rattle.whole_file.specs.Placement.{IsPlaced, IsPlacing};
ghost use Rattle.whole_file.specs.TempFiles.{IsDurableAt};

use crate::trim_kept::keep_notes;
use crate::trim_read::AllNotes;
use host_calls::{Host, HostFault};
use mail_notes::{Note, mail_name, mail_temp_name};
use record_lines::lines_text;
use spool_store::Store;
use std::alloc::Global;
use whole_file::replace;

// Gives the file the notes that stay of those that were read. Where all stay, the file is left as it is.
pub(crate) fn write_kept<H: Host>(
    alloc: Global,
    host: &mut H,
    store: &Store,
    read: &mut AllNotes,
) -> Result<(), HostFault>
    requires inside { IsInside (H.session host.old) }
    requires told { AreStatesOfNotes read.old.notes.items read.old.notice_states }
    requires spelled { All (CanBeSpelled SpellsNote) read.old.notes.items }
    requires durable { IsTrue H.tells → IsDurableAt mail_temp (H.world host.old).now.directory }
    ensures inside { CallsInside HostFault.Failed (H.session host.old) (H.session host.new) result }
    ensures files { IsTrue H.tells → ChangesFiles (IsPlacing mail_temp mail_file
        (notes_text (trimmed store.now.table read.old.notes.items)) (H.world host.old).now.directory)
        (H.world host.old) (H.world host.new) }
    ensures written { IsTrue H.tells → OnOk result
        (IsTrimWritten store.now.table read.old.notes.items (H.world host.old) (H.world host.new)) }
{
    let count = read.notes.len();
    keep_notes(store, &read.notice_states, &mut read.notes);
    if read.notes.len() == count {
        return Ok(());
    }
    replace_notes(alloc, host, read.notes.as_slice())
}

// Gives the file these notes.
fn replace_notes<H: Host>(alloc: Global, host: &mut H, notes: &[Note]) -> Result<(), HostFault>
    requires inside { IsInside (H.session host.old) }
    requires spelled { All (CanBeSpelled SpellsNote) notes.now }
    requires durable { IsTrue H.tells → IsDurableAt mail_temp (H.world host.old).now.directory }
    ensures inside { CallsInside HostFault.Failed (H.session host.old) (H.session host.new) result }
    ensures files { IsTrue H.tells → ChangesFiles (IsPlacing mail_temp mail_file (notes_text notes.now)
        (H.world host.old).now.directory) (H.world host.old) (H.world host.new) }
    ensures placed { IsTrue H.tells → OnOk result (IsPlaced mail_temp mail_file (notes_text notes.now)
        (H.world host.old).now.directory (H.world host.new).now.directory) }
{
    let text = lines_text(alloc, notes)?;
    replace(
        alloc,
        host,
        &mail_temp_name(),
        &mail_name(),
        text.as_slice(),
    )
}
