//! Taking what can be taken of a journal that may have faults.
ghost use Rattle.std.specs.Prelude.{◌≡◌, ◌≤◌, ◌<◌, ◌+◌, ◌*◌, ◌^◌, ◌++◌, ℕ, All, Some, IfOk, IfSome, List, OnOk};
ghost use Rattle.start_journal.specs.declared.mark.Mark.{Mark};
ghost use Rattle.start_journal.specs.Journals.{one_slot};
ghost use Rattle.start_journal.specs.Lifecycles.{TellLifecycles};
ghost use Rattle.start_journal.specs.SlotBytes.{mark_in};
ghost use Rattle.start_journal.specs.Marks.{IsLegalAfter};
ghost use Rattle.start_journal.specs.Taken.{IsSlotWithinFile, faults_in, free_after, legal_mark, offset_of, place_of_fault, taken_at, taken_of, with_taken};

use crate::lifecycles::Lifecycles;
use crate::recall::next;
use crate::slot::SLOT;
use crate::{Mark, read_mark};
use std::alloc::{AllocError, Global};

/// A mark, and the place of its slot among the slots of the journal.
#[derive(Clone, Copy, Debug, PartialEq, Eq)]
pub struct TakenMark {
    pub place: u64,
    pub mark: Mark,
}

/// What is taken of a journal that may have faults.
#[derive(Drop)]
pub struct Taken {
    /// The marks that are spelled and legal after those before them, in their order.
    pub marks: Vec<TakenMark>,
    /// The offset of each fault, in their order.
    pub faults: Vec<u64>,
}

/// What is taken of the bytes of a journal, where no mark may name a number above the bound. A mark above it is taken
/// all the same, and is a fault besides.
pub fn take(alloc: Global, bytes: &[u8], bound: u32) -> Result<Taken, AllocError>
    ensures marks { IfOk result (λ taken. taken.marks.items ≡ taken_of (Some bytes.now)) }
    ensures near { IfOk result (λ taken. All IsSlotWithinFile taken.marks.items) }
    ensures faults { IfOk result (λ taken. taken.faults.items ≡ faults_in bound bytes.now) }
{
    let (slots, rest) = bytes.as_chunks::<SLOT>();
    let mut marks = Vec::new(alloc);
    let mut faults = Vec::new(alloc);
    let mut lives = Lifecycles::new(alloc, u32::MAX);
    let mut free: u64 = 0;
    for (place, slot) in slots.iter().enumerate() {
        let fault = slot_fault(&lives, free, slot, bound);
        push_offset(&mut faults, place * SLOT, fault)?;
        let mark = legal_mark(&lives, slot);
        keep_taken(&mut marks, &mut lives, place, mark)?;
        free += closed(slot);
    }
    if !rest.is_empty() {
        faults.push((slots.len() * SLOT) as u64)?;
    }
    Ok(Taken { marks, faults })
}

// The place of the fault of a slot, after marks that give these lives and after free slots, if it has one.
fn slot_fault(lives: &Lifecycles, free: u64, slot: &[u8; SLOT], bound: u32) -> Option<usize>
    ensures few { IfSome result (λ place. place ≤ 32) }
    ensures fault { (marks : List Mark) → TellLifecycles marks lives.now
        → place_of_fault (one_slot bound (record { marks = marks; free = free }) slot.now) ≡ result }
{
    next(lives, free, slot, bound).err()
}

// The mark of a slot, where it is legal after marks that give these lives.
fn legal_mark(lives: &Lifecycles, slot: &[u8; SLOT]) -> Option<Mark>
    ensures { (marks : List Mark) → TellLifecycles marks lives.now → result ≡ legal_mark marks (mark_in slot.now) }
{
    match read_mark(slot) {
        Some(mark) if lives.allow(mark) => Some(mark),
        _ => None,
    }
}

// Notes the offset of a slot's fault, if it has one.
fn push_offset(faults: &mut Vec<u64>, offset: usize, fault: Option<usize>) -> Result<(), AllocError>
    requires few { IfSome fault (λ place. place ≤ 32) }
    requires inside { offset < 2 ^ 63 }
    ensures { OnOk result (faults.new.items ≡ faults.old.items ++ offset_of offset fault) }
{
    if let Some(place) = fault {
        faults.push((offset + place) as u64)?;
    }
    Ok(())
}

// Keeps the mark of the slot at this place, if there is one.
fn keep_taken(
    marks: &mut Vec<TakenMark>,
    lives: &mut Lifecycles,
    place: usize,
    mark: Option<Mark>,
) -> Result<(), AllocError>
    requires near { 32 * place + 32 < 2 ^ 64 }
    ensures marks { OnOk result (marks.new.items ≡ marks.old.items ++ taken_at place mark) }
    ensures near { OnOk result (All IsSlotWithinFile marks.old.items → All IsSlotWithinFile marks.new.items) }
    ensures lives { OnOk result ((before : List Mark) → TellLifecycles before lives.old
        → IfSome mark (IsLegalAfter before) → TellLifecycles (with_taken before mark) lives.new) }
{
    if let Some(mark) = mark {
        lives.add(mark)?;
        marks.push(TakenMark {
            place: place as u64,
            mark,
        })?;
    }
    Ok(())
}

// One for a slot that is closed.
fn closed(slot: &[u8; SLOT]) -> u64
    ensures few { result ≤ 1 }
    ensures closed { (free : ℕ) → free + result ≡ free_after free slot.now }
{
    if slot[0] == b'+' { 0 } else { 1 }
}
