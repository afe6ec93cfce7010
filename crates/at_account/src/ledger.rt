//! What the records say of each job, by its number.
ghost use Rattle.std.specs.Prelude.{◌≡◌, ◌∷◌, ◌++◌, [], ℕ, List, OnOk};
ghost use Rattle.std.specs.Option.{option_copied};
ghost use Rattle.std.specs.Bool.{Decides};
ghost use Rattle.std.specs.BTreeMap.{get};
ghost use Rattle.std.specs.Ordering.{nat_cmp};
ghost use Rattle.at_account.specs.Records.{IsRecordAllowed};
ghost use Rattle.at_account.specs.declared.record.AccountRecord.{AccountRecord};
ghost use Rattle.at_account.specs.RecordStates.{IsLedgerOf, IsRecordStateAt, event_may_follow, record_state_after};

use crate::{AccountEvent, AccountRecord, Owner};
use record_lines::Keeper;
use std::alloc::{AllocError, Global};
use std::collections::BTreeMap;

/// What the records say of a job that was seen.
#[derive(Clone, Copy)]
pub struct RecordState {
    pub owner: Owner,
    pub started: bool,
    pub closed: bool,
}

/// What the records say of each job that was seen, by its number.
#[derive(Drop)]
pub struct Ledger {
    record_states: BTreeMap<u32, RecordState>,
}

impl Ledger {
    /// The ledger of no records.
    pub fn new(alloc: Global) -> Ledger
        ensures { IsLedgerOf [] result }
    {
        Ledger {
            record_states: BTreeMap::new(alloc),
        }
    }

    /// The state of the job of the number, if some record names it.
    pub fn state_of(&self, number: u32) -> Option<&RecordState>
        ensures { (records : List AccountRecord) → IsLedgerOf records self.now
            → IsRecordStateAt records number (option_copied result) }
    {
        self.record_states.get(&number)
    }
}

impl Keeper<AccountRecord> for Ledger {
    ghost tells = { IsLedgerOf };

    ghost legal = { IsRecordAllowed };

    fn allows(&self, next: &AccountRecord) -> bool {
        event_may_follow(self.record_states.get(&next.number), &next.event)
    }

    fn add(&mut self, next: &AccountRecord) -> Result<(), AllocError> {
        let record_state = record_state_after(self.record_states.get(&next.number), &next.event);
        if let Some(record_state) = record_state {
            self.record_states.insert(next.number, record_state)?;
        }
        Ok(())
    }
}

// Whether the event may come next in the life of a job in this state.
fn event_may_follow(record_state: Option<&RecordState>, event: &AccountEvent) -> bool
    ensures { result ≡ event_may_follow (option_copied record_state.entry) event.now }
{
    match (record_state, event) {
        (None, AccountEvent::Seen(_)) => true,
        (Some(record_state), AccountEvent::Started) => !record_state.started
            && !record_state.closed,
        (Some(record_state), AccountEvent::Closed(_)) => !record_state.closed,
        _ => false,
    }
}

// The state of the job after the event.
fn record_state_after(
    record_state: Option<&RecordState>,
    event: &AccountEvent,
) -> Option<RecordState>
    ensures { result ≡ record_state_after (option_copied record_state.entry) event.now }
{
    match event {
        AccountEvent::Seen(owner) => Some(RecordState {
            owner: *owner,
            started: false,
            closed: false,
        }),
        AccountEvent::Started => record_state.map(|one| RecordState {
            owner: one.owner,
            started: true,
            closed: one.closed,
        }),
        AccountEvent::Closed(_) => record_state.map(|one| RecordState {
            owner: one.owner,
            started: one.started,
            closed: true,
        }),
    }
}
