//! What is to be written for what is saved of a directory.
ghost use Rattle.std.specs.Prelude.{◌≡◌, ◌++◌, true, IfOk, OnOk, option_to_list};
ghost use Rattle.std.specs.FinMap as finite;
ghost use Rattle.std.specs.List.{filter_map};
ghost use Rattle.host_calls.specs.Directory.{Files};
ghost use Rattle.sequence_file.specs.Sequence.{SpellsIn};
ghost use Rattle.spool_faults.specs.Faults.{faults_of, files_taken};
ghost use Rattle.spool_faults.specs.Plan.{IsPlanOf};
ghost use Rattle.spool_faults.specs.Salvaged.{greatest, is_faulty, last_or_zero, loses_marks, number_named};
ghost use Rattle.spool_faults.specs.inside.FoundFiles.{file_first};
ghost use Rattle.spool_faults.specs.inside.ScanResult.{IsSpoolScan};
ghost use Rattle.spool_faults.specs.inside.SavedParts.{name_unless};
ghost use Rattle.spool_model.specs.declared.number.TheConstants.{LAST_NUMBER};
ghost use Rattle.start_journal.specs.Journals.{AreWritable};
ghost use Rattle.start_journal.specs.Marks.{number_of_mark};
ghost use Rattle.start_journal.specs.Taken.{journal_faults};

use crate::find_files::decided;
use crate::first_files::FirstFile;
use crate::orphans::has_orphan;
use crate::saved_marks::saved_marks;
use crate::scan::SpoolScan;
use host_calls::{Bytes, Damage, Name};
use job_name::JobName;
use sequence_file::sequence_file_text;
use spool_model::LAST_NUMBER;
use start_journal::{Mark, journal_text, take};
use std::alloc::{AllocError, Global};
use std::collections::BTreeSet;

// How many free slots the journal has that is written.
const FREE_SLOTS: u64 = 256;

/// What is to be written for what is saved of a directory: the names of the files that are copied, the journal, and
/// the sequence file.
#[derive(Drop)]
pub struct SalvagePlan {
    pub names: Vec<Name>,
    pub journal: Vec<u8>,
    pub sequence: Vec<u8>,
}

// The plan, by one look at the directory, which has these faults.
pub(crate) fn plan_of(
    alloc: Global,
    scan: &SpoolScan,
    faults: &[Damage],
) -> Result<SalvagePlan, AllocError>
    requires { AreWritable scan.now.marks.items }
    ensures { (files : Files) → IsSpoolScan files scan.now → faults.now ≡ faults_of files
        → IfOk result (λ plan. IsPlanOf files plan.names.items plan.journal.items plan.sequence.items) }
{
    let lost = loses_marks(alloc, scan, faults)?;
    let marks = saved_marks(
        alloc,
        scan.marks.as_slice(),
        &scan.decided,
        &scan.firsts,
        lost,
    )?;
    let decided = decided(alloc, marks.as_slice())?;
    let names = names_left(alloc, scan.firsts.files.as_slice(), &decided)?;
    let journal = journal_text(alloc, marks.as_slice(), FREE_SLOTS)?;
    let last = saved_last(&scan.number, scan.marks.as_slice(), scan.names.as_slice());
    let sequence = sequence_text(alloc, last)?;
    Ok(SalvagePlan {
        names,
        journal,
        sequence,
    })
}

// Whether a mark of the journal may be lost. None is where the directory has no fault.
fn loses_marks(alloc: Global, scan: &SpoolScan, faults: &[Damage]) -> Result<bool, AllocError>
    ensures { (files : Files) → IsSpoolScan files scan.now → faults.now ≡ faults_of files
        → IfOk result (λ lost. lost ≡ loses_marks scan.now.number scan.now.journal
        (files_taken scan.now.marks.items (finite.entries files))) }
{
    if faults.is_empty() {
        return Ok(false);
    }
    let faulty = is_faulty(alloc, &scan.journal)?;
    let orphan = has_orphan(
        last_or_zero(&scan.number),
        scan.marks.as_slice(),
        &scan.decided,
        &scan.firsts.queues,
    );
    Ok(faulty || orphan)
}

// Whether the journal has a fault, a number above the last one left aside.
fn is_faulty(alloc: Global, journal: &Option<Bytes>) -> Result<bool, AllocError>
    ensures { IfOk result (λ faulty. faulty ≡ is_faulty (journal_faults LAST_NUMBER journal.now)) }
{
    match journal {
        None => Ok(false),
        Some(bytes) => {
            let taken = take(alloc, bytes.as_slice(), LAST_NUMBER)?;
            Ok(!taken.faults.is_empty())
        }
    }
}

// The names of the files whose numbers are not finished.
fn names_left(
    alloc: Global,
    files: &[FirstFile],
    decided: &BTreeSet<u32>,
) -> Result<Vec<Name>, AllocError>
    ensures { IfOk result (λ names. names.items
        ≡ filter_map (λ file. name_unless decided.now (file_first file)) files.now) }
{
    let mut names = Vec::new(alloc);
    for file in files {
        leave(&mut names, *file, decided)?;
    }
    Ok(names)
}

fn leave(names: &mut Vec<Name>, file: FirstFile, decided: &BTreeSet<u32>) -> Result<(), AllocError>
    ensures { OnOk result (names.new.items
        ≡ names.old.items ++ option_to_list (name_unless decided.now (file_first file))) }
{
    if !decided.contains(&file.job.number) {
        names.push(file.name)?;
    }
    Ok(())
}

// The number that counts as drawn last.
fn saved_last(number: &Result<u32, Damage>, marks: &[Mark], names: &[Name]) -> u32
    ensures { result ≡ greatest (greatest (last_or_zero number.now) (filter_map number_of_mark marks.now))
        (filter_map number_named names.now) }
{
    greatest_name(greatest_mark(last_or_zero(number), marks), names)
}

fn last_or_zero(number: &Result<u32, Damage>) -> u32
    ensures { result ≡ last_or_zero number.now }
{
    match number {
        Ok(last) => *last,
        Err(_) => 0,
    }
}

fn greatest_mark(least: u32, marks: &[Mark]) -> u32
    ensures { result ≡ greatest least (filter_map number_of_mark marks.now) }
{
    let mut last = least;
    for mark in marks {
        last = greater(last, mark.number());
    }
    last
}

fn greatest_name(least: u32, names: &[Name]) -> u32
    ensures { result ≡ greatest least (filter_map number_named names.now) }
{
    let mut last = least;
    for name in names {
        last = greater(last, number_named(*name));
    }
    last
}

fn greater(least: u32, number: Option<u32>) -> u32
    ensures { result ≡ greatest least (option_to_list number) }
{
    match number {
        Some(number) if least < number => number,
        _ => least,
    }
}

fn number_named(name: Name) -> Option<u32>
    ensures { result ≡ number_named name }
{
    match JobName::read(name.as_bytes()) {
        Some(job) => Some(job.number),
        None => None,
    }
}

fn sequence_text(alloc: Global, last: u32) -> Result<Vec<u8>, AllocError>
    ensures { IfOk result (λ text. SpellsIn true text.items last) }
{
    let mut text = Vec::new(alloc);
    text.extend_from_slice(&sequence_file_text(last))?;
    Ok(text)
}
