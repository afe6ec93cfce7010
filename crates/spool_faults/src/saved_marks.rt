//! The marks that are saved: those that are taken of the journal, and those that are added to them.
ghost use Rattle.std.specs.Prelude.{◌≡◌, ◌++◌, ◌||◌, [], ℕ, List, IfOk, IfSome, OnOk, option_to_list};
ghost use Rattle.std.specs.BTreeSet.{contains};
ghost use Rattle.std.specs.List.{filter_map};
ghost use Rattle.std.specs.Ordering.{nat_cmp};
ghost use Rattle.spool_faults.specs.Faults.{first_files};
ghost use Rattle.spool_faults.specs.Salvaged.{given_up, marks_with};
ghost use Rattle.spool_faults.specs.inside.FoundFiles.{AreDecidedNumbers, AreFirstFiles, AreQueues, file_first};
ghost use Rattle.spool_faults.specs.inside.SavedParts.{AreNamedNumbers, removal_unless};
ghost use Rattle.spool_shows.specs.JobFiles.{JobFile};
ghost use Rattle.start_journal.specs.declared.mark.Mark.{Mark};
ghost use Rattle.start_journal.specs.Journals.{AreWritable};
ghost use Rattle.start_journal.specs.Marks.{is_mark_of};
ghost use Rattle.start_journal.specs.Slots.{IsWritable};

use crate::first_files::{FirstFile, FirstFiles};
use crate::job_faults::start_damage;
use start_journal::{Mark, TakenMark};
use std::alloc::{AllocError, Global};
use std::collections::{BTreeMap, BTreeSet};

// The marks that are saved, where these are taken of the journal: each start that is given up ends, and where marks
// may be lost, each job that none names is removed.
pub(crate) fn saved_marks(
    alloc: Global,
    marks: &[Mark],
    decided: &BTreeSet<u32>,
    firsts: &FirstFiles,
    lost: bool,
) -> Result<Vec<Mark>, AllocError>
    ensures writable { AreWritable marks.now → IfOk result (λ saved. AreWritable saved.items) }
    ensures saved { (files : List JobFile) → AreDecidedNumbers marks.now decided.now
        → AreFirstFiles files firsts.now → IfOk result (λ saved. saved.items ≡ marks_with marks.now (first_files [] files) lost) }
{
    let mut saved = Vec::new(alloc);
    saved.extend_from_slice(marks)?;
    give_up(marks, decided, &firsts.queues, &mut saved)?;
    if lost {
        let named = named_numbers(alloc, marks)?;
        remove_unnamed(firsts.files.as_slice(), &named, &mut saved)?;
    }
    Ok(saved)
}

// Puts the end of each start that is given up to the marks before it.
fn give_up(
    marks: &[Mark],
    decided: &BTreeSet<u32>,
    queues: &BTreeMap<u32, u8>,
    saved: &mut Vec<Mark>,
) -> Result<(), AllocError>
    ensures writable { OnOk result (AreWritable marks.now → AreWritable saved.old.items
        → AreWritable saved.new.items) }
    ensures saved { OnOk result ((all : List Mark) (files : List JobFile) → AreDecidedNumbers all decided.now
        → AreQueues files queues.now
        → saved.new.items ≡ saved.old.items ++ filter_map (given_up all files) marks.now) }
{
    for mark in marks {
        keep_mark(saved, given_up(*mark, decided, queues))?;
    }
    Ok(())
}

// The end of the start, if it is given up.
fn given_up(mark: Mark, decided: &BTreeSet<u32>, queues: &BTreeMap<u32, u8>) -> Option<Mark>
    ensures writable { IsWritable mark → IfSome result IsWritable }
    ensures given { (all : List Mark) (files : List JobFile) → AreDecidedNumbers all decided.now
        → AreQueues files queues.now → result ≡ given_up all files mark }
{
    match mark {
        Mark::Started { number, .. } => {
            match start_damage(TakenMark { place: 0, mark }, decided, queues) {
                Some(_) => Some(Mark::Interrupted(number)),
                None => None,
            }
        }
        Mark::Removed(_)
        | Mark::Ended { .. }
        | Mark::Interrupted(_)
        | Mark::Forgotten(_)
        | Mark::Batch(_) => None,
    }
}

// Removes each job that no mark names.
fn remove_unnamed(
    files: &[FirstFile],
    named: &BTreeSet<u32>,
    saved: &mut Vec<Mark>,
) -> Result<(), AllocError>
    ensures writable { OnOk result (AreWritable saved.old.items → AreWritable saved.new.items) }
    ensures saved { OnOk result (saved.new.items
        ≡ saved.old.items ++ filter_map (λ file. removal_unless named.now (file_first file)) files.now) }
{
    for file in files {
        keep_mark(saved, taken_back(*file, named))?;
    }
    Ok(())
}

// The mark that takes the job back, if none names it.
fn taken_back(file: FirstFile, named: &BTreeSet<u32>) -> Option<Mark>
    ensures writable { IfSome result IsWritable }
    ensures taken { result ≡ removal_unless named.now (file_first file) }
{
    if named.contains(&file.job.number) {
        None
    } else {
        Some(Mark::Removed(file.job.number))
    }
}

// Puts the mark to those before it, if there is one.
fn keep_mark(saved: &mut Vec<Mark>, mark: Option<Mark>) -> Result<(), AllocError>
    ensures writable { OnOk result (IfSome mark IsWritable → AreWritable saved.old.items
        → AreWritable saved.new.items) }
    ensures saved { OnOk result (saved.new.items ≡ saved.old.items ++ option_to_list mark) }
{
    if let Some(mark) = mark {
        saved.push(mark)?;
    }
    Ok(())
}

// The numbers that the marks name.
fn named_numbers(alloc: Global, marks: &[Mark]) -> Result<BTreeSet<u32>, AllocError>
    ensures { IfOk result (AreNamedNumbers marks.now) }
{
    let mut named = BTreeSet::new(alloc);
    for mark in marks {
        add_named(&mut named, *mark)?;
    }
    Ok(named)
}

fn add_named(named: &mut BTreeSet<u32>, mark: Mark) -> Result<(), AllocError>
    ensures { OnOk result ((number : ℕ) → contains nat_cmp named.new number
        ≡ (contains nat_cmp named.old number || is_mark_of number mark)) }
{
    match mark {
        Mark::Removed(number)
        | Mark::Interrupted(number)
        | Mark::Forgotten(number)
        | Mark::Ended { number, .. }
        | Mark::Started { number, .. } => {
            named.insert(number)?;
        }
        Mark::Batch(_) => {}
    }
    Ok(())
}
