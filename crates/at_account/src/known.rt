//! What is known of each job, by its number.
ghost use Rattle.std.specs.Prelude.{◌≡◌, Some, IfOk, OnOk, map};
ghost use Rattle.std.specs.BTreeMap.{Updates};
ghost use Rattle.std.specs.Ordering.{nat_cmp};
ghost use Rattle.spool_model.specs.JobTable.{JobTable};
ghost use Rattle.spool_store.specs.Listed.{ListsDecided, ListsLive};
ghost use Rattle.at_account.specs.ObservedTable.{known_in};
ghost use Rattle.at_account.specs.inside.KnownJobs.{ArePut, Knows, decided_known, record_known, row_known};

use crate::new_records::KnownJob;
use crate::record::{AccountRecord, Owner};
use spool_model::{Decided, Row, State};
use std::alloc::{AllocError, Global};
use std::collections::BTreeMap;

// What the table has of each number that it has or that a record names.
pub(crate) fn known_jobs(
    alloc: Global,
    records: &[AccountRecord],
    rows: &[Row],
    decided: &[Decided],
) -> Result<BTreeMap<u32, Option<KnownJob>>, AllocError>
    ensures { IfOk result (λ jobs. (table : JobTable) → ListsLive table rows.now → ListsDecided table decided.now
        → Knows records.now (known_in table) jobs) }
{
    let mut jobs = BTreeMap::new(alloc);
    put_records(&mut jobs, records)?;
    put_rows(&mut jobs, rows)?;
    put_decided(&mut jobs, decided)?;
    Ok(jobs)
}

// The numbers that records name, as the table does not have them.
fn put_records(
    jobs: &mut BTreeMap<u32, Option<KnownJob>>,
    records: &[AccountRecord],
) -> Result<(), AllocError>
    ensures { OnOk result (ArePut (map record_known records.now) jobs.old jobs.new) }
{
    for one in records {
        put_known(jobs, one.number, None)?;
    }
    Ok(())
}

// The live jobs.
fn put_rows(jobs: &mut BTreeMap<u32, Option<KnownJob>>, rows: &[Row]) -> Result<(), AllocError>
    ensures { OnOk result (ArePut (map row_known rows.now) jobs.old jobs.new) }
{
    for row in rows {
        put_known(jobs, row.number, Some(live_job(row)))?;
    }
    Ok(())
}

fn live_job(row: &Row) -> KnownJob
    ensures { Some result ≡ (row_known row.now).1 }
{
    let owner = Owner {
        user: row.user,
        queue: row.queue,
    };
    KnownJob::Live(owner, matches!(row.state, State::Running(_)))
}

// The jobs that are done.
fn put_decided(
    jobs: &mut BTreeMap<u32, Option<KnownJob>>,
    decided: &[Decided],
) -> Result<(), AllocError>
    ensures { OnOk result (ArePut (map decided_known decided.now) jobs.old jobs.new) }
{
    for one in decided {
        put_known(jobs, one.number, Some(KnownJob::Done(one.fate)))?;
    }
    Ok(())
}

fn put_known(
    jobs: &mut BTreeMap<u32, Option<KnownJob>>,
    number: u32,
    known: Option<KnownJob>,
) -> Result<(), AllocError>
    ensures { OnOk result (Updates nat_cmp jobs.old jobs.new number (Some known)) }
{
    jobs.insert(number, known)?;
    Ok(())
}
