//! The account: the records of jobs, and what they come to.
ghost use Rattle.std.specs.Prelude.{◌≡◌, ◌≤◌, [], ℕ, All, List, Err, IfOk, IfErr, OnOk, OnErr, length};
ghost use Rattle.record_lines.specs.Lines.{AreLegalAfter, AreRecordLines, CanBeSpelled, IsFirstBadLine};
ghost use Rattle.record_lines.specs.declared.reader.LinesFault.TheVariants as lines;
ghost use Rattle.at_account.specs.Lines.{SpellsRecord};
ghost use Rattle.at_account.specs.Records.{IsRecordAllowed};
ghost use Rattle.spool_model.specs.JobTable.{IsSound, JobTable};
ghost use Rattle.spool_store.specs.Listed.{ListsDecided, ListsLive};
ghost use Rattle.at_account.specs.declared.fault.AccountFault.TheVariants as faults;
ghost use Rattle.at_account.specs.ObservedTable.{HaveLetters, IsObserved, WouldPass};
ghost use Rattle.at_account.specs.Totals.{AreTotals};

use crate::known::known_jobs;
use crate::ledger::Ledger;
use crate::new_records_of_jobs::{add_records, news_of_jobs};
use crate::owner_names::users_are_names;
use crate::record::AccountRecord;
use crate::tally::totals_of;
use crate::{AccountFault, AccountLine};
use record_lines::{LinesFault, read_lines};
use spool_model::{Decided, Row};
use std::alloc::Global;
use std::marker::Model;

/// The greatest number of records of an account.
pub const MAX_RECORDS: usize = 100_000;

/// The records of jobs, each of which may come after those before it, and what they come to for each
/// owner. A contract sees the records.
#[derive(Drop)]
pub struct Account {
    records: Vec<AccountRecord>,
    totals: Vec<AccountLine>,
}

impl Model for Account {
    ghost use Rattle.std.specs.Prelude.{List};
    ghost use Rattle.at_account.specs.declared.record.AccountRecord.{AccountRecord};
    ghost use Rattle.at_account.specs.Totals.{IsAccount};

    ghost Value = { List AccountRecord };

    ghost view = { λ account. account.records.items };

    ghost invariant = { λ account. IsAccount account.records.items account.totals.items };
}

impl Account {
    /// The account without records.
    pub fn new(alloc: Global) -> Account
        ensures { result ≡ [] }
    {
        Account {
            records: Vec::new(alloc),
            totals: Vec::new(alloc),
        }
    }

    /// The account of a file of records, unless it has a bad line.
    pub fn read(alloc: Global, bytes: &[u8]) -> Result<Account, LinesFault>
        ensures records { IfOk result (AreRecordLines SpellsRecord IsRecordAllowed bytes.now) }
        ensures damaged { IfErr result (λ fault. (offset : ℕ) → fault ≡ lines.At offset
            → IsFirstBadLine SpellsRecord IsRecordAllowed bytes.now offset) }
    {
        let mut ledger = Ledger::new(alloc);
        let records: Vec<AccountRecord> = read_lines(alloc, bytes, &mut ledger)?;
        let totals = totals_of(alloc, &ledger, &records, &[])?;
        Ok(Account { records, totals })
    }

    /// The records, in the order in which they came.
    pub fn records(&self) -> &[AccountRecord]
        ensures records { result.now ≡ self.now }
        ensures in_turn { AreLegalAfter IsRecordAllowed [] self.now }
    {
        self.records.as_slice()
    }

    /// Takes what is new of the jobs of a table, which a store lists: of each number that it is seen, that it
    /// was started, and that it is closed. Where there would be too many records, or memory runs out, the
    /// account stays as it was.
    pub fn observe(
        &mut self,
        alloc: Global,
        rows: &[Row],
        decided: &[Decided],
    ) -> Result<(), AccountFault>
        ensures observed { OnOk result ((table : JobTable) → ListsLive table rows.now
            → ListsDecided table decided.now → IsObserved self.old self.new table) }
        ensures spelled { OnOk result (All (CanBeSpelled SpellsRecord) self.old → (table : JobTable) → IsSound table
            → ListsLive table rows.now → ListsDecided table decided.now → HaveLetters rows.now
            → All (CanBeSpelled SpellsRecord) self.new) }
        ensures few { OnOk result (length self.new ≤ 100000) }
        ensures full { result ≡ Err faults.Full → (table : JobTable) → ListsLive table rows.now
            → ListsDecided table decided.now → WouldPass self.old table }
        ensures kept { OnErr result (self.new ≡ self.old) }
    {
        users_are_names(rows);
        let mut ledger = Ledger::new(alloc);
        let old = self.records.as_slice();
        add_records(&mut ledger, old)?;
        let jobs = known_jobs(alloc, old, rows, decided)?;
        let new_records = news_of_jobs(alloc, &ledger, &jobs)?;
        let new = new_records.as_slice();
        if old.len() + new.len() > MAX_RECORDS {
            return Err(AccountFault::Full);
        }
        add_records(&mut ledger, new)?;
        let totals = totals_of(alloc, &ledger, old, new)?;
        self.records.extend_from_slice(new)?;
        self.totals = totals;
        Ok(())
    }

    /// A line for each user and queue with which a job was seen, by the user's bytes, then the queue, with
    /// counts over all records. It takes no memory.
    pub fn totals(&self) -> &[AccountLine]
        ensures { AreTotals self.now result.now }
    {
        self.totals.as_slice()
    }
}
