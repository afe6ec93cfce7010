//! Reading the journal.
ghost use Rattle.std.specs.Prelude.{◌≡◌, ◌≢◌, ◌≤◌, ◌++◌, [], ◌∷◌, Ok, Err, Some, IfOk, IfErr, IfSome, List, OnOk, MatchResult, IsTrue, length};
ghost use Rattle.std.specs.FinMap as map;
ghost use Rattle.host_calls.specs.Session.{CallsInside, IsInside};
ghost use Rattle.host_calls.specs.World.{reading};
ghost use Rattle.start_journal.specs.Journals.{are_drawn, is_drawn, journal_file, journal_in, one_slot, with_slot};
ghost use Rattle.host_calls.specs.Damages.{IfDamaged, damage_at};
ghost use Rattle.start_journal.specs.Marks.{IsLegalAfter};
ghost use Rattle.start_journal.specs.Lifecycles.{TellLifecycles};
ghost use Rattle.start_journal.specs.declared.mark.Mark.{Mark};

use crate::lifecycles::Lifecycles;
use crate::names::journal_name;
use crate::right_prefix::right_prefix;
use crate::slot::SLOT;
use crate::{Journal, JournalFault, Mark, read_mark};
use host_calls::{Damage, Host};
use std::alloc::{AllocError, Global};
use whole_file::content;

impl Journal {
    /// The journal of the directory, where this number was drawn last.
    pub fn recall<H: Host>(alloc: Global, host: &mut H, last: u32) -> Result<Journal, JournalFault>
        requires { IsInside (H.session host.old) }
        ensures inside { CallsInside JournalFault.Failed (H.session host.old) (H.session host.new) result }
        ensures looks { IsTrue H.tells → H.world host.new ≡ H.world host.old }
        ensures drawn { IfOk result (λ journal. IsTrue (are_drawn last journal.marks)) }
        ensures journal { IsTrue H.tells → IfOk result (λ journal.
            journal_in last (map.get (reading (H.world host.old)) journal_file) ≡ Ok journal) }
        ensures damaged { IsTrue H.tells → IfDamaged JournalFault.Damaged (λ damage.
            journal_in last (map.get (reading (H.world host.old)) journal_file) ≡ Err damage) result }
    {
        let (journal, _) = Journal::recall_with_lives(alloc, host, last)?;
        Ok(journal)
    }

    /// The journal of the directory, as `recall` answers it, and what its marks say of each number.
    pub fn recall_with_lives<H: Host>(
        alloc: Global,
        host: &mut H,
        last: u32,
    ) -> Result<(Journal, Lifecycles), JournalFault>
        requires { IsInside (H.session host.old) }
        ensures inside { CallsInside JournalFault.Failed (H.session host.old) (H.session host.new) result }
        ensures looks { IsTrue H.tells → H.world host.new ≡ H.world host.old }
        ensures drawn { IfOk result (λ read. IsTrue (are_drawn last read.0.marks)) }
        ensures lives { IfOk result (λ read. TellLifecycles read.0.marks read.1) }
        ensures journal { IsTrue H.tells → IfOk result (λ read.
            journal_in last (map.get (reading (H.world host.old)) journal_file) ≡ Ok read.0) }
        ensures damaged { IsTrue H.tells → IfDamaged JournalFault.Damaged (λ damage.
            journal_in last (map.get (reading (H.world host.old)) journal_file) ≡ Err damage) result }
    {
        match content(alloc, host, &journal_name())? {
            Some(bytes) => read_marks(alloc, bytes.as_slice(), last),
            None => Ok((
                Journal {
                    marks: Vec::new(alloc),
                    free: 0,
                },
                Lifecycles::new(alloc, u32::MAX),
            )),
        }
    }
}

// The journal that these bytes give and what its marks say, or the place where they break its form.
fn read_marks(alloc: Global, bytes: &[u8], last: u32) -> Result<(Journal, Lifecycles), JournalFault>
    ensures journal { IfOk result (λ read. journal_in last (Some bytes.now) ≡ Ok read.0) }
    ensures lives { IfOk result (λ read. TellLifecycles read.0.marks read.1) }
    ensures damaged { IfDamaged JournalFault.Damaged (λ damage. journal_in last (Some bytes.now) ≡ Err damage) result }
    ensures no_fault { result ≢ Err JournalFault.Failed }
{
    let (slots, rest) = bytes.as_chunks::<SLOT>();
    let mut marks = Vec::new(alloc);
    let first = (last as usize).saturating_sub(slots.len()) as u32;
    let mut lives = Lifecycles::new(alloc, first);
    let mut free: u64 = 0;
    for (place, slot) in slots.iter().enumerate() {
        let found = match next(&lives, free, slot, last) {
            Ok(found) => found,
            Err(offset) => {
                return Err(JournalFault::Damaged(damage(bytes, place * SLOT + offset)));
            }
        };
        match found {
            Some(mark) => put_mark(&mut marks, &mut lives, mark)?,
            None => free += 1,
        }
    }
    if !rest.is_empty() {
        return Err(JournalFault::Damaged(damage(bytes, slots.len() * SLOT)));
    }
    Ok((Journal { marks, free }, lives))
}

fn put_mark(marks: &mut Vec<Mark>, lives: &mut Lifecycles, mark: Mark) -> Result<(), AllocError>
    ensures marks { OnOk result (marks.new.items ≡ marks.old.items ++ mark ∷ []) }
    ensures lives { OnOk result (TellLifecycles marks.old.items lives.old
        → IsLegalAfter marks.old.items mark → TellLifecycles marks.new.items lives.new) }
{
    lives.add(mark)?;
    marks.push(mark)?;
    Ok(())
}

// The mark of a slot after marks that give these lives and after free slots, `None` where its gate is
// closed, or the place in the slot where it breaks the form of a journal.
pub(crate) fn next(
    lives: &Lifecycles,
    free: u64,
    slot: &[u8; SLOT],
    last: u32,
) -> Result<Option<Mark>, usize>
    ensures few { IfErr result (λ place. place ≤ 32) }
    ensures legal { (marks : List Mark) → TellLifecycles marks lives.now
        → IfOk result (λ found. IfSome found (IsLegalAfter marks)) }
    ensures slot { (marks : List Mark) → TellLifecycles marks lives.now → MatchResult result
        (λ found. one_slot last (record { marks = marks; free = free }) slot.now
        ≡ Ok (with_slot (record { marks = marks; free = free }) found))
        (λ place. one_slot last (record { marks = marks; free = free }) slot.now ≡ Err place) }
{
    if slot[0] != b'+' {
        return Ok(None);
    }
    if free != 0 {
        return Err(0);
    }
    match read_mark(slot) {
        None => Err(right_prefix(slot)),
        Some(mark) => {
            if lives.allow(mark) && is_drawn(last, mark) {
                Ok(Some(mark))
            } else {
                Err(0)
            }
        }
    }
}

fn damage(bytes: &[u8], offset: usize) -> Damage
    ensures { result ≡ damage_at journal_file bytes.now offset }
{
    Damage::at(journal_name(), bytes, offset)
}

fn is_drawn(last: u32, mark: Mark) -> bool
    ensures { result ≡ is_drawn last mark }
{
    match mark.number() {
        Some(number) => number <= last,
        None => true,
    }
}
