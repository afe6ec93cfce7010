//! Whether most of a journal no longer counts.
ghost use Rattle.std.specs.Prelude.{◌≡◌, IfOk, count_by};
ghost use Rattle.start_journal.specs.Compaction.{gone_count, wants_compaction};
ghost use Rattle.start_journal.specs.inside.ForgottenNumbers.{forgets_one, is_among};
ghost use Rattle.start_journal.specs.Marks.{number_of_mark};

use crate::kept_marks::forgotten;
use crate::{Journal, Mark};
use std::alloc::{AllocError, Global};
use std::collections::BTreeSet;

/// How many marks a journal that wants compaction has at least.
pub const COMPACTION_SLOTS: usize = 256;

impl Journal {
    /// Whether there are many marks, and more than half of them name forgotten numbers. It takes no memory
    /// where few numbers are forgotten.
    pub fn wants_compaction(&self, alloc: Global) -> Result<bool, AllocError>
        ensures { IfOk result (λ wanted. wanted ≡ wants_compaction self.now.marks) }
    {
        let marks = self.marks.as_slice();
        // Three marks at most name a number, so a few that are forgotten can't be most of the journal.
        if marks.len() < COMPACTION_SLOTS || forgotten_count(marks) <= marks.len() / 6 {
            return Ok(false);
        }
        Ok(gone_count(alloc, marks)? > marks.len() / 2)
    }
}

// How many numbers the marks forget.
fn forgotten_count(marks: &[Mark]) -> usize
    ensures { result ≡ count_by forgets_one marks.now }
{
    marks
        .iter()
        .filter(|mark| matches!(mark, Mark::Forgotten(_)))
        .count()
}

// How many of the marks name a number that they forget.
fn gone_count(alloc: Global, marks: &[Mark]) -> Result<usize, AllocError>
    ensures { IfOk result (λ count. count ≡ gone_count marks.now) }
{
    let gone = forgotten(alloc, marks)?;
    Ok(marks.iter().filter(|mark| is_gone(&gone, **mark)).count())
}

fn is_gone(gone: &BTreeSet<u32>, mark: Mark) -> bool
    ensures { result ≡ is_among gone.now (number_of_mark mark) }
{
    match mark.number() {
        Some(number) => gone.contains(&number),
        None => false,
    }
}
