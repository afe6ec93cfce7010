//! The slot of a mark.
ghost use Rattle.std.specs.Prelude.{IfSome, IfNone};
ghost use Rattle.start_journal.specs.Slots.{SpellsMark, IsWritable};
ghost use Rattle.start_journal.specs.declared.mark.Mark.{Mark};

use crate::{Fields, Mark};

/// How many bytes a slot has.
pub const SLOT: usize = 32;

/// The slot of the mark, its gate open.
pub fn mark_text(mark: &Mark) -> [u8; SLOT]
    requires { IsWritable mark.now }
    ensures { SpellsMark result mark.now }
{
    let mut slot = [0; SLOT];
    Fields::of(mark).write(&mut slot);
    slot
}

/// The mark that the slot spells, if it spells one.
pub fn read_mark(slot: &[u8; SLOT]) -> Option<Mark>
    ensures mark { IfSome result (SpellsMark slot.now) }
    ensures none { IfNone result ((mark : Mark) → ¬ (SpellsMark slot.now mark)) }
{
    Fields::read(slot)?.mark()
}
