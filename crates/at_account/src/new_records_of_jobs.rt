//! The new records of all jobs.
ghost use Rattle.std.specs.Prelude.{◌++◌, ℕ, List, Option, IfOk, OnOk};
ghost use Rattle.record_lines.specs.Lines.{AreLegalAfter};
ghost use Rattle.at_account.specs.declared.new_records.KnownJob.{KnownJob};
ghost use Rattle.at_account.specs.declared.record.AccountRecord.{AccountRecord};
ghost use Rattle.at_account.specs.Records.{IsRecordAllowed};
ghost use Rattle.at_account.specs.RecordStates.{IsLedgerOf};
ghost use Rattle.at_account.specs.ObservedTable.{AreNewsBy};
ghost use Rattle.at_account.specs.inside.KnownJobs.{Knows};

use crate::ledger::Ledger;
use crate::new_records::{KnownJob, add_new_records};
use crate::record::AccountRecord;
use record_lines::Keeper;
use std::alloc::{AllocError, Global};
use std::collections::BTreeMap;

// What is new of each job, in the order of their numbers.
pub(crate) fn news_of_jobs(
    alloc: Global,
    ledger: &Ledger,
    jobs: &BTreeMap<u32, Option<KnownJob>>,
) -> Result<Vec<AccountRecord>, AllocError>
    ensures are { IfOk result (λ new_records. (before : List AccountRecord) (known : ℕ → Option KnownJob)
        → IsLedgerOf before ledger.now → Knows before known jobs.now → AreNewsBy before known new_records.items) }
    ensures in_turn { IfOk result (λ new_records. (before : List AccountRecord)
        → IsLedgerOf before ledger.now → AreLegalAfter IsRecordAllowed before new_records.items) }
{
    let mut new_records = Vec::new(alloc);
    for (number, known) in jobs {
        add_new_records(
            &mut new_records,
            *number,
            ledger.state_of(*number),
            known.as_ref(),
        )?;
    }
    Ok(new_records)
}

// Takes records, each of which may come next.
pub(crate) fn add_records(ledger: &mut Ledger, records: &[AccountRecord]) -> Result<(), AllocError>
    ensures { OnOk result ((before : List AccountRecord) → IsLedgerOf before ledger.old
        → AreLegalAfter IsRecordAllowed before records.now → IsLedgerOf (before ++ records.now) ledger.new) }
{
    for one in records {
        ledger.add(one)?;
    }
    Ok(())
}
