//! What a compaction keeps of the marks.
ghost use Rattle.std.specs.Prelude.{◌≡◌, ◌||◌, ℕ, IfOk, OnOk};
ghost use Rattle.std.specs.List.{filter};
ghost use Rattle.start_journal.specs.inside.ForgottenNumbers.{AreForgotten, has_gone_number, is_kept_beside};
ghost use Rattle.start_journal.specs.Marks.{batch_second, is_forgetting, is_kept, kept_marks, last_batch};

use crate::Mark;
use spool_model::is_batch;
use std::alloc::{AllocError, Global};
use std::collections::BTreeSet;

// The marks of numbers that are not forgotten, and the last start of a batch job.
pub(crate) fn kept_marks(alloc: Global, marks: &[Mark]) -> Result<Vec<Mark>, AllocError>
    ensures { IfOk result (λ kept. kept.items ≡ kept_marks marks.now) }
{
    let mut kept = marks_of_kept(alloc, marks)?;
    if let Some(second) = last_batch(marks) {
        kept.push(Mark::Batch(second))?;
    }
    Ok(kept)
}

fn marks_of_kept(alloc: Global, marks: &[Mark]) -> Result<Vec<Mark>, AllocError>
    ensures { IfOk result (λ kept. kept.items ≡ filter (is_kept marks.now) marks.now) }
{
    let gone = forgotten(alloc, marks)?;
    marks
        .iter()
        .filter(|mark| is_kept(&gone, **mark))
        .copied()
        .collect(alloc)
}

// The numbers that the marks forget.
pub(crate) fn forgotten(alloc: Global, marks: &[Mark]) -> Result<BTreeSet<u32>, AllocError>
    ensures { IfOk result (AreForgotten marks.now) }
{
    let mut gone = BTreeSet::new(alloc);
    for mark in marks {
        forget(&mut gone, *mark)?;
    }
    Ok(gone)
}

fn forget(gone: &mut BTreeSet<u32>, mark: Mark) -> Result<(), AllocError>
    ensures { OnOk result ((number : ℕ)
        → has_gone_number gone.new number ≡ (has_gone_number gone.old number || is_forgetting number mark)) }
{
    if let Mark::Forgotten(number) = mark {
        gone.insert(number)?;
    }
    Ok(())
}

fn is_kept(gone: &BTreeSet<u32>, mark: Mark) -> bool
    ensures { result ≡ is_kept_beside gone.now mark }
{
    match mark.number() {
        Some(number) => !gone.contains(&number),
        None => false,
    }
}

/// The second of the last mark that starts a job of a batch queue.
pub fn last_batch(marks: &[Mark]) -> Option<i64>
    ensures { result ≡ last_batch marks.now }
{
    let mut last = None;
    for mark in marks {
        last = batch_second(mark).or(last);
    }
    last
}

fn batch_second(mark: &Mark) -> Option<i64>
    ensures { result ≡ batch_second mark.now }
{
    match *mark {
        Mark::Started { queue, second, .. } if is_batch(queue) => Some(second),
        Mark::Batch(second) => Some(second),
        _ => None,
    }
}
