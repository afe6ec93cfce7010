//! The faults of the files of jobs, and of starts.
ghost use Rattle.std.specs.Prelude.{◌≡◌, ◌++◌, [], ◌||◌, ◌==◌, ◌<◌, ◌+◌, ◌*◌, ◌^◌, ℕ, All, List, Option, OnOk, option_map, option_to_list};
ghost use Rattle.std.specs.BTreeMap as tree;
ghost use Rattle.std.specs.BTreeSet.{contains};
ghost use Rattle.std.specs.Ordering.{nat_cmp};
ghost use Rattle.spool_faults.specs.Faults.{files_faults, starts_faults};
ghost use Rattle.spool_faults.specs.inside.FoundFiles.{AreDecidedNumbers, AreQueues, HasNumbers, files_found};
ghost use Rattle.spool_shows.specs.JobFiles.{JobFile};
ghost use Rattle.spool_shows.specs.Shown.{mark_damage, start_damage};
ghost use Rattle.start_journal.specs.declared.mark.Mark.{Mark};
ghost use Rattle.start_journal.specs.Taken.{IsSlotWithinFile};

use crate::found_file::FoundFile;
use host_calls::Damage;
use start_journal::{Mark, TakenMark, gate_damage, queue_damage};
use std::alloc::{AllocError, Global};
use std::collections::{BTreeMap, BTreeSet};

// Puts the faults of the files to those before them.
pub(crate) fn files_faults(
    alloc: Global,
    bound: u32,
    files: &[FoundFile],
    faults: &mut Vec<Damage>,
) -> Result<(), AllocError>
    ensures { OnOk result (faults.new.items ≡ faults.old.items ++ files_faults bound [] (files_found files.now)) }
{
    let mut before = BTreeSet::new(alloc);
    for file in files {
        push_fault(faults, file.fault(bound, &before))?;
        add_number(&mut before, file.job.number)?;
    }
    Ok(())
}

fn push_fault(faults: &mut Vec<Damage>, fault: Option<Damage>) -> Result<(), AllocError>
    ensures { OnOk result (faults.new.items ≡ faults.old.items ++ option_to_list fault) }
{
    if let Some(damage) = fault {
        faults.push(damage)?;
    }
    Ok(())
}

fn add_number(before: &mut BTreeSet<u32>, number: u32) -> Result<(), AllocError>
    ensures { OnOk result ((other : ℕ) → contains nat_cmp before.new other
        ≡ (number == other || contains nat_cmp before.old other)) }
{
    before.insert(number)?;
    Ok(())
}

// Puts the faults of starts to those before them.
pub(crate) fn starts_faults(
    marks: &[TakenMark],
    decided: &BTreeSet<u32>,
    queues: &BTreeMap<u32, u8>,
    faults: &mut Vec<Damage>,
) -> Result<(), AllocError>
    requires { All IsSlotWithinFile marks.now }
    ensures { OnOk result ((all : List Mark) (files : List JobFile) → AreDecidedNumbers all decided.now
        → AreQueues files queues.now
        → faults.new.items ≡ faults.old.items ++ starts_faults all files marks.now) }
{
    for one in marks {
        push_fault(faults, start_damage(*one, decided, queues))?;
    }
    Ok(())
}

pub(crate) fn start_damage(
    one: TakenMark,
    decided: &BTreeSet<u32>,
    queues: &BTreeMap<u32, u8>,
) -> Option<Damage>
    requires { IsSlotWithinFile one }
    ensures { (all : List Mark) (files : List JobFile) → AreDecidedNumbers all decided.now → AreQueues files queues.now
        → result ≡ mark_damage all files one.place one.mark }
{
    match one.mark {
        Mark::Started { number, queue, .. } => {
            if decided.contains(&number) {
                return None;
            }
            queue_fault(one.place, queue, queue_of_number(queues, number))
        }
        Mark::Removed(_)
        | Mark::Ended { .. }
        | Mark::Interrupted(_)
        | Mark::Forgotten(_)
        | Mark::Batch(_) => None,
    }
}

fn queue_of_number(queues: &BTreeMap<u32, u8>, number: u32) -> Option<u8>
    ensures { result ≡ tree.get nat_cmp queues.now number }
{
    queues.get(&number).copied()
}

// The fault of a start in this queue, by the queue of its file.
fn queue_fault(place: u64, queue: u8, found: Option<u8>) -> Option<Damage>
    requires { 32 * place + 32 < 2 ^ 64 }
    ensures { (file : Option JobFile) → found ≡ option_map (λ file. file.job.queue) file
        → result ≡ start_damage place queue file }
{
    match found {
        None => Some(gate_damage(place)),
        Some(other) if other == queue => None,
        Some(_) => Some(queue_damage(place, queue)),
    }
}
