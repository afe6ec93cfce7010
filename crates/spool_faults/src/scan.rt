//! One look at a settled directory: all its faults, and what is needed for what is saved of it.
ghost use Rattle.std.specs.Prelude.{◌≡◌, ◌++◌, All, IfOk, IsTrue, OnOk, Some, map};
ghost use Rattle.std.specs.FinMap as finite;
ghost use Rattle.std.specs.List.{filter};
ghost use Rattle.host_calls.specs.Damages.{damage_at};
ghost use Rattle.host_calls.specs.Session.{CallsInside, IsInside};
ghost use Rattle.host_calls.specs.World.{reading};
ghost use Rattle.sequence_file.specs.LastNumber.{last_in};
ghost use Rattle.spool_faults.specs.Faults.{bound_by, faults_of, has_header, jobs_faults, sequence_faults};
ghost use Rattle.spool_faults.specs.inside.FoundFiles.{AreDecidedNumbers, AreFirstFiles};
ghost use Rattle.spool_faults.specs.inside.ScanResult.{IsSpoolScan};
ghost use Rattle.spool_shows.specs.JobFiles.{job_files};
ghost use Rattle.start_journal.specs.Journals.{AreWritable, journal_file};
ghost use Rattle.start_journal.specs.Taken.{IsSlotWithinFile, journal_faults, marks_of, taken_of};

use crate::find_files::{decided, find_files};
use crate::first_files::{FirstFiles, first_files};
use crate::job_faults::{files_faults, starts_faults};
use host_calls::{Bytes, Damage, Host, HostFault, Name};
use sequence_file::{read_sequence, sequence_name};
use spool_model::LAST_NUMBER;
use start_journal::{Mark, Taken, TakenMark, journal_name, take};
use std::alloc::{AllocError, Global};
use std::collections::BTreeSet;
use whole_file::whole;

// What is found in a directory.
#[derive(Drop)]
pub(crate) struct SpoolScan {
    // The last number, or the damage of the sequence file.
    pub(crate) number: Result<u32, Damage>,
    // The content of the journal, if there is one, and the marks that are taken of it.
    pub(crate) journal: Option<Bytes>,
    pub(crate) marks: Vec<Mark>,
    // The numbers that they decide.
    pub(crate) decided: BTreeSet<u32>,
    // The names of all files, and the files of jobs that are taken.
    pub(crate) names: Vec<Name>,
    pub(crate) firsts: FirstFiles,
}

// One look at a settled directory. It is listed once, and at most 60 bytes of each job's file are read. All its faults
// are put to those before them.
pub(crate) fn scan_spool<H: Host>(
    alloc: Global,
    host: &mut H,
    faults: &mut Vec<Damage>,
) -> Result<SpoolScan, HostFault>
    requires { IsInside (H.session host.old) }
    ensures inside { CallsInside HostFault.Failed (H.session host.old) (H.session host.new) result }
    ensures looks { IsTrue H.tells → H.world host.new ≡ H.world host.old }
    ensures writable { IfOk result (λ scan. AreWritable scan.marks.items) }
    ensures faults { IsTrue H.tells
        → OnOk result (faults.new.items ≡ faults.old.items ++ faults_of (reading (H.world host.old))) }
    ensures scan { IsTrue H.tells → IfOk result (IsSpoolScan (reading (H.world host.old))) }
{
    let names = host.names(alloc)?;
    let sequence = content_among(alloc, host, names.as_slice(), &sequence_name())?;
    let journal = content_among(alloc, host, names.as_slice(), &journal_name())?;
    let number = sequence_number(&sequence);
    note_sequence(faults, &number)?;
    let taken = take_journal(alloc, &journal, bound_of(&number), faults)?;
    let marks = marks_alone(alloc, taken.as_slice())?;
    let decided = decided(alloc, marks.as_slice())?;
    let firsts = note_jobs(
        alloc,
        host,
        names.as_slice(),
        taken.as_slice(),
        bound_of(&number),
        &decided,
        faults,
    )?;
    Ok(SpoolScan {
        number,
        journal,
        marks,
        decided,
        names,
        firsts,
    })
}

// The content of the named file, if it is among these names of all files.
fn content_among<H: Host>(
    alloc: Global,
    host: &mut H,
    names: &[Name],
    name: &Name,
) -> Result<Option<Bytes>, HostFault>
    requires inside { IsInside (H.session host.old) }
    requires listed { IsTrue H.tells → names.now ≡ finite.keys (reading (H.world host.old)) }
    ensures inside { CallsInside HostFault.Failed (H.session host.old) (H.session host.new) result }
    ensures looks { IsTrue H.tells → H.world host.new ≡ H.world host.old }
    ensures content { IsTrue H.tells
        → IfOk result (λ content. content ≡ finite.get (reading (H.world host.old)) name.now) }
{
    if !names.contains(name) {
        return Ok(None);
    }
    Ok(Some(whole(alloc, host, name)?))
}

// The last number that the sequence file gives by its content, or its damage.
fn sequence_number(content: &Option<Bytes>) -> Result<u32, Damage>
    ensures { result ≡ last_in content.now }
{
    match content {
        None => Ok(0),
        Some(bytes) => read_sequence(bytes.as_slice()),
    }
}

fn bound_of(number: &Result<u32, Damage>) -> u32
    ensures { result ≡ bound_by number.now }
{
    match number {
        Ok(last) => *last,
        Err(_) => LAST_NUMBER,
    }
}

fn note_sequence(faults: &mut Vec<Damage>, number: &Result<u32, Damage>) -> Result<(), AllocError>
    ensures { OnOk result (faults.new.items ≡ faults.old.items ++ sequence_faults number.now) }
{
    if let Err(damage) = number {
        faults.push(*damage)?;
    }
    Ok(())
}

// The marks that are taken of the journal. Its faults are put to those before them.
fn take_journal(
    alloc: Global,
    journal: &Option<Bytes>,
    bound: u32,
    faults: &mut Vec<Damage>,
) -> Result<Vec<TakenMark>, AllocError>
    ensures marks { IfOk result (λ marks. marks.items ≡ taken_of journal.now) }
    ensures near { IfOk result (λ marks. All IsSlotWithinFile marks.items) }
    ensures faults { OnOk result (faults.new.items ≡ faults.old.items ++ journal_faults bound journal.now) }
{
    match journal {
        None => Ok(Vec::new(alloc)),
        Some(bytes) => take_bytes(alloc, bytes.as_slice(), bound, faults),
    }
}

fn take_bytes(
    alloc: Global,
    bytes: &[u8],
    bound: u32,
    faults: &mut Vec<Damage>,
) -> Result<Vec<TakenMark>, AllocError>
    ensures marks { IfOk result (λ marks. marks.items ≡ taken_of (Some bytes.now)) }
    ensures near { IfOk result (λ marks. All IsSlotWithinFile marks.items) }
    ensures faults { OnOk result (faults.new.items ≡ faults.old.items ++ journal_faults bound (Some bytes.now)) }
{
    let Taken {
        marks,
        faults: offsets,
    } = take(alloc, bytes, bound)?;
    note_offsets(bytes, offsets.as_slice(), faults)?;
    Ok(marks)
}

// Puts the damage of the journal at these offsets to the faults before it.
fn note_offsets(bytes: &[u8], offsets: &[u64], faults: &mut Vec<Damage>) -> Result<(), AllocError>
    ensures { OnOk result (faults.new.items ≡ faults.old.items ++ map (damage_at journal_file bytes.now) offsets.now) }
{
    for offset in offsets {
        faults.push(Damage::at(journal_name(), bytes, *offset as usize))?;
    }
    Ok(())
}

// The marks without their places.
fn marks_alone(alloc: Global, taken: &[TakenMark]) -> Result<Vec<Mark>, AllocError>
    ensures { IfOk result (λ marks. marks.items ≡ marks_of taken.now) }
{
    let mut marks = Vec::new(alloc);
    for one in taken {
        marks.push(one.mark)?;
    }
    Ok(marks)
}

// Puts the faults of the files of jobs and of starts to those before them. The files that are taken.
fn note_jobs<H: Host>(
    alloc: Global,
    host: &mut H,
    names: &[Name],
    marks: &[TakenMark],
    bound: u32,
    decided: &BTreeSet<u32>,
    faults: &mut Vec<Damage>,
) -> Result<FirstFiles, HostFault>
    requires inside { IsInside (H.session host.old) }
    requires listed { IsTrue H.tells → names.now ≡ finite.keys (reading (H.world host.old)) }
    requires near { All IsSlotWithinFile marks.now }
    requires decided { AreDecidedNumbers (marks_of marks.now) decided.now }
    ensures inside { CallsInside HostFault.Failed (H.session host.old) (H.session host.new) result }
    ensures looks { IsTrue H.tells → H.world host.new ≡ H.world host.old }
    ensures faults { IsTrue H.tells → OnOk result (faults.new.items ≡ faults.old.items
        ++ jobs_faults bound (marks_of marks.now) marks.now (finite.entries (reading (H.world host.old)))) }
    ensures firsts { IsTrue H.tells → IfOk result (AreFirstFiles
        (filter has_header (job_files (marks_of marks.now) (finite.entries (reading (H.world host.old)))))) }
{
    let found = find_files(alloc, host, names, decided)?;
    let firsts = first_files(alloc, found.as_slice())?;
    files_faults(alloc, bound, found.as_slice(), faults)?;
    starts_faults(marks, decided, &firsts.queues, faults)?;
    Ok(firsts)
}
