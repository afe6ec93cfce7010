//! The line of a note is put after a text.
ghost use Rattle.std.specs.Prelude.{◌≡◌, ◌++◌, OnOk};
ghost use Rattle.mail_notes.specs.Lines.{IsNote, note_line};

use mail_notes::Note;
use record_lines::LineRecord;
use std::alloc::AllocError;

// Puts the line of the note after the text.
pub(crate) fn add_note_line(text: &mut Vec<u8>, note: &Note) -> Result<(), AllocError>
    requires { IsNote note.now }
    ensures { OnOk result (text.new.items ≡ text.old.items ++ note_line note.now) }
{
    note.write(text)?;
    text.push(b'\n')?;
    Ok(())
}
