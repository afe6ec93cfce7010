//! The scan of the files of jobs, file by file.
ghost use Rattle.std.specs.Prelude.{◌≡◌, ◌++◌, ◌∷◌, ℕ, [], Some, None, List, IfOk, IfSome, OnOk, MatchResult};
ghost use Rattle.std.specs.BTreeMap.{IsOrdered, Updates, values};
ghost use Rattle.std.specs.Ordering.{nat_cmp};
ghost use Rattle.spool_model.specs.declared.row.Row.{Row};
ghost use Rattle.spool_shows.specs.JobFiles.{files_damage};
ghost use Rattle.spool_shows.specs.Shown.{state_since};
ghost use Rattle.start_journal.specs.declared.mark.Mark.{Mark};
ghost use Rattle.host_calls.specs.StoreFaults.{IsFound};
ghost use Rattle.start_journal.specs.Lifecycles.{TellLifecycles};
ghost use Rattle.spool_store.specs.inside.JobRows.{AreRowsOf, HaveRows, IsRowOrDamage, IsTaken};
ghost use Rattle.spool_store.specs.inside.ScannedJobs.{file_scanned, files_scanned};

use crate::StoreFault;
use crate::scanned_job::ScannedJob;
use host_calls::Damage;
use spool_model::{Row, State};
use start_journal::Lifecycles;
use std::alloc::{AllocError, Global};
use std::collections::BTreeMap;

// The rows of the files, in the order of their numbers, or the first damage of the files.
pub(crate) fn rows_in_order(
    alloc: Global,
    last: u32,
    lives: &Lifecycles,
    scanned: &[ScannedJob],
) -> Result<Vec<Row>, StoreFault>
    ensures { (marks : List Mark) → TellLifecycles marks lives.now → MatchResult result
        (λ rows. HaveRows last marks (files_scanned scanned.now) rows.items)
        (IsFound (files_damage last [] (files_scanned scanned.now))) }
{
    match rising_rows(alloc, last, lives, scanned)? {
        Some(rows) => Ok(rows),
        None => sorted_rows(alloc, last, lives, scanned),
    }
}

// The same where the numbers rise from file to file, as those of one queue do. None where they don't.
fn rising_rows(
    alloc: Global,
    last: u32,
    lives: &Lifecycles,
    scanned: &[ScannedJob],
) -> Result<Option<Vec<Row>>, StoreFault>
    ensures { (marks : List Mark) → TellLifecycles marks lives.now → MatchResult result
        (λ found. IfSome found (λ rows. HaveRows last marks (files_scanned scanned.now) rows.items))
        (IsFound (files_damage last [] (files_scanned scanned.now))) }
{
    let mut rows = Vec::with_capacity(alloc, scanned.len())?;
    let mut above = 0;
    for file in scanned {
        if file.job.number <= above {
            return Ok(None);
        }
        let row = row_of(last, false, lives, file)?;
        above = row.number;
        add_row(&mut rows, row)?;
    }
    Ok(Some(rows))
}

fn add_row(rows: &mut Vec<Row>, row: Row) -> Result<(), AllocError>
    ensures { OnOk result (rows.new.items ≡ rows.old.items ++ row ∷ []) }
{
    rows.push(row)?;
    Ok(())
}

// The same in whatever order the numbers come.
fn sorted_rows(
    alloc: Global,
    last: u32,
    lives: &Lifecycles,
    scanned: &[ScannedJob],
) -> Result<Vec<Row>, StoreFault>
    ensures { (marks : List Mark) → TellLifecycles marks lives.now → MatchResult result
        (λ rows. HaveRows last marks (files_scanned scanned.now) rows.items)
        (IsFound (files_damage last [] (files_scanned scanned.now))) }
{
    let by_number = rows_of_files(alloc, last, lives, scanned)?;
    let rows = values_of(alloc, &by_number)?;
    Ok(rows)
}

fn values_of(alloc: Global, rows: &BTreeMap<u32, Row>) -> Result<Vec<Row>, AllocError>
    ensures items { IfOk result (λ list. list.items ≡ values rows.now) }
    ensures ordered { IsOrdered nat_cmp rows.now }
{
    rows.values().copied().collect(alloc)
}

// The rows of the files, by their numbers, or the first damage of the files.
fn rows_of_files(
    alloc: Global,
    last: u32,
    lives: &Lifecycles,
    scanned: &[ScannedJob],
) -> Result<BTreeMap<u32, Row>, StoreFault>
    ensures { (marks : List Mark) → TellLifecycles marks lives.now → MatchResult result
        (λ rows. (files_damage last [] (files_scanned scanned.now) ≡ None)
        × AreRowsOf marks (files_scanned scanned.now) rows.entries)
        (IsFound (files_damage last [] (files_scanned scanned.now))) }
{
    let mut rows = BTreeMap::new(alloc);
    for file in scanned {
        let row = row_of(last, rows.contains_key(&file.job.number), lives, file)?;
        put_row(&mut rows, row)?;
    }
    Ok(rows)
}

// The row of a file, or its damage. Whether a file before it has its number is reported.
fn row_of(last: u32, is_taken: bool, lives: &Lifecycles, file: &ScannedJob) -> Result<Row, Damage>
    ensures { (before : List ℕ) (marks : List Mark) → IsTaken before file.now.job.number is_taken
        → TellLifecycles marks lives.now → IsRowOrDamage last before marks (file_scanned file.now) result }
{
    let job = file.job;
    if job.number > last || is_taken {
        return Err(file.damage_at(0));
    }
    match file.user() {
        Ok(user) => Ok(Row {
            number: job.number,
            queue: job.queue,
            minute: job.minute,
            user,
            state: state_of(lives.get(job.number).started),
        }),
        Err(place) => Err(file.damage_at(place)),
    }
}

fn state_of(started: Option<i64>) -> State
    ensures { result ≡ state_since started }
{
    match started {
        Some(second) => State::Running(second),
        None => State::Pending,
    }
}

fn put_row(rows: &mut BTreeMap<u32, Row>, row: Row) -> Result<(), AllocError>
    ensures { OnOk result (Updates nat_cmp rows.old rows.new row.number (Some row)) }
{
    rows.insert(row.number, row)?;
    Ok(())
}
