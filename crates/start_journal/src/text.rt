//! The bytes of a journal that is written whole.
ghost use Rattle.std.specs.Prelude.{◌≡◌, IfOk};
ghost use Rattle.start_journal.specs.Journals.{AreWritable, SpellsJournal, free_slot};

use crate::slot::SLOT;
use crate::{Mark, mark_text};
use std::alloc::{AllocError, Global};

/// The journal of these marks: their slots, and so many free slots after them.
pub fn journal_text(alloc: Global, marks: &[Mark], free: u64) -> Result<Vec<u8>, AllocError>
    requires { AreWritable marks.now }
    ensures { IfOk result (λ text. SpellsJournal text.items marks.now free) }
{
    let mut text = slots_of(alloc, marks)?;
    for count in 0..free {
        text.extend_from_slice(&free_slot())?;
    }
    Ok(text)
}

fn slots_of(alloc: Global, marks: &[Mark]) -> Result<Vec<u8>, AllocError>
    requires { AreWritable marks.now }
    ensures { IfOk result (λ text. SpellsJournal text.items marks.now 0) }
{
    let mut text = Vec::new(alloc);
    for mark in marks {
        text.extend_from_slice(&mark_text(mark))?;
    }
    Ok(text)
}

// A slot that is free.
#[tactic(auto, unfolding(crate::specs::Journals::free_slot))]
fn free_slot() -> [u8; SLOT]
    ensures { result ≡ free_slot }
{
    *b"-..............................\n"
}
