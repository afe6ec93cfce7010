//! Counts of the records, for each owner.
ghost use Rattle.std.specs.Prelude.{◌≡◌, ◌<◌, ◌^◌, ◌∷◌, ◌++◌, [], ℕ, List, IfOk, OnOk, length, map, slice_index};
ghost use Rattle.std.specs.BTreeMap.{IsOrdered};
ghost use Rattle.std.specs.Option.{option_copied};
ghost use Rattle.at_account.specs.declared.record.AccountRecord.{AccountRecord};
ghost use Rattle.at_account.specs.RecordStates.{IsLedgerOf};
ghost use Rattle.at_account.specs.Totals.{AreTotals, kind_of_event};
ghost use Rattle.at_account.specs.inside.OwnerCounts.{AreRaised, IsTallyOf, counts_so_far, owner_line, pair_cmp};

use crate::ledger::Ledger;
use crate::record::{AccountEvent, AccountRecord, Closing};
use crate::{AccountLine, KINDS};
use spool_model::UserName;
use std::alloc::{AllocError, Global};
use std::collections::BTreeMap;

// The lines of two lists of records, one after the other, all of which the ledger knows.
pub(crate) fn totals_of(
    alloc: Global,
    ledger: &Ledger,
    old: &[AccountRecord],
    new: &[AccountRecord],
) -> Result<Vec<AccountLine>, AllocError>
    ensures { IfOk result (λ lines. IsLedgerOf (old.now ++ new.now) ledger.now
        → length (old.now ++ new.now) < 2 ^ 64 → AreTotals (old.now ++ new.now) lines.items) }
{
    let mut tally = BTreeMap::new(alloc);
    count_all(&mut tally, ledger, old)?;
    count_all(&mut tally, ledger, new)?;
    let lines = lines_of(alloc, &tally)?;
    Ok(lines)
}

// Counts these records.
fn count_all(
    tally: &mut BTreeMap<(UserName, u8), [u64; KINDS]>,
    ledger: &Ledger,
    records: &[AccountRecord],
) -> Result<(), AllocError>
    ensures { OnOk result ((all : List AccountRecord) (counted : List AccountRecord) → IsLedgerOf all ledger.now
        → IsTallyOf all counted tally.old → IsTallyOf all (counted ++ records.now) tally.new) }
{
    for one in records {
        count_one(tally, ledger, one)?;
    }
    Ok(())
}

// Counts one record, for the owner with which its job was seen.
fn count_one(
    tally: &mut BTreeMap<(UserName, u8), [u64; KINDS]>,
    ledger: &Ledger,
    one: &AccountRecord,
) -> Result<(), AllocError>
    ensures { OnOk result ((all : List AccountRecord) (counted : List AccountRecord) → IsLedgerOf all ledger.now
        → IsTallyOf all counted tally.old → IsTallyOf all (counted ++ one.now ∷ []) tally.new) }
{
    let Some(record_state) = ledger.state_of(one.number) else {
        return Ok(());
    };
    let pair = (record_state.owner.user, record_state.owner.queue);
    let counts = raised(tally.get(&pair), kind_of_event(&one.event));
    tally.insert(pair, counts)?;
    Ok(())
}

// The counts with one more of the kind.
fn raised(counts: Option<&[u64; KINDS]>, kind: usize) -> [u64; KINDS]
    requires { kind < 7 }
    ensures { AreRaised (option_copied counts.entry) kind result }
{
    let mut raised = so_far(counts);
    raised[kind] = raised[kind].saturating_add(1);
    raised
}

// The counts so far, none of which has begun where there are no others.
fn so_far(counts: Option<&[u64; KINDS]>) -> [u64; KINDS]
    ensures { (kind : ℕ) → kind < 7 → slice_index result kind ≡ counts_so_far (option_copied counts.entry) kind }
{
    match counts {
        Some(counts) => *counts,
        None => [0; KINDS],
    }
}

// The place of an event's count.
fn kind_of_event(event: &AccountEvent) -> usize
    ensures kind { result ≡ kind_of_event event.now }
    ensures inside { result < 7 }
{
    match event {
        AccountEvent::Seen(_) => 0,
        AccountEvent::Started => 1,
        AccountEvent::Closed(Closing::Finished) => 2,
        AccountEvent::Closed(Closing::NotStarted) => 3,
        AccountEvent::Closed(Closing::Interrupted) => 4,
        AccountEvent::Closed(Closing::Removed) => 5,
        AccountEvent::Closed(Closing::Lost) => 6,
    }
}

// A line for each owner, in order.
fn lines_of(
    alloc: Global,
    tally: &BTreeMap<(UserName, u8), [u64; KINDS]>,
) -> Result<Vec<AccountLine>, AllocError>
    ensures lines { IfOk result (λ lines. lines.items ≡ map owner_line tally.now.entries) }
    ensures ordered { IsOrdered pair_cmp tally.now }
{
    let mut lines = Vec::new(alloc);
    for ((user, queue), counts) in tally {
        lines.push(AccountLine {
            user: *user,
            queue: *queue,
            counts: *counts,
        })?;
    }
    Ok(lines)
}
