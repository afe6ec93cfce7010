//! What is new of a job, by what the records and the table of jobs say of it.
ghost use Rattle.std.specs.Prelude.{◌≡◌, ◌++◌, List, OnOk};
ghost use Rattle.std.specs.Option.{option_copied};
ghost use Rattle.at_account.specs.declared.record.AccountRecord.{AccountRecord};
ghost use Rattle.at_account.specs.News.{closing_event, closing_of, is_handed_over, is_known_live, live_owner, news_of, records_of, said_by, seen_event, start_event};
ghost use Rattle.at_account.specs.RecordStates.{IsRecordStateAt};

use crate::{AccountEvent, AccountRecord, Closing, Owner, RecordState};
use host_calls::Ending;
use spool_model::Fate;
use std::alloc::AllocError;

/// What the table of jobs has of a number.
#[derive(Clone, Copy)]
pub enum KnownJob {
    /// A live job, and whether it runs.
    Live(Owner, bool),
    Done(Fate),
}

/// Adds what is new of the job: that it is seen, that it was started, and that it is closed.
pub fn add_new_records(
    new_records: &mut Vec<AccountRecord>,
    number: u32,
    record_state: Option<&RecordState>,
    known: Option<&KnownJob>,
) -> Result<(), AllocError>
    ensures { OnOk result ((before : List AccountRecord) → IsRecordStateAt before number
        (option_copied record_state.entry)
        → new_records.new.items ≡ new_records.old.items ++ news_of before number (option_copied known.entry)) }
{
    let said = said_by(record_state);
    add_event(new_records, number, seen_event(said.seen, known))?;
    add_event(
        new_records,
        number,
        start_event(said.seen, said.started, said.closed, known),
    )?;
    add_event(
        new_records,
        number,
        closing_event(said.seen, said.closed, known),
    )?;
    Ok(())
}

// What the records say of a job.
#[derive(Clone, Copy)]
struct Said {
    seen: bool,
    started: bool,
    closed: bool,
}

fn said_by(record_state: Option<&RecordState>) -> Said
    ensures { result ≡ said_by (option_copied record_state.entry) }
{
    match record_state {
        Some(record_state) => Said {
            seen: true,
            started: record_state.started,
            closed: record_state.closed,
        },
        None => Said {
            seen: false,
            started: false,
            closed: false,
        },
    }
}

fn add_event(
    new_records: &mut Vec<AccountRecord>,
    number: u32,
    event: Option<AccountEvent>,
) -> Result<(), AllocError>
    ensures { OnOk result (new_records.new.items ≡ new_records.old.items ++ records_of number event) }
{
    if let Some(event) = event {
        new_records.push(AccountRecord { number, event })?;
    }
    Ok(())
}

// That a live job is seen which was not.
fn seen_event(seen: bool, known: Option<&KnownJob>) -> Option<AccountEvent>
    ensures { result ≡ seen_event seen (option_copied known.entry) }
{
    if seen {
        return None;
    }
    let owner = live_owner(known)?;
    Some(AccountEvent::Seen(owner))
}

// That a job was started, where no record says so yet.
fn start_event(
    seen: bool,
    started: bool,
    closed: bool,
    known: Option<&KnownJob>,
) -> Option<AccountEvent>
    ensures { result ≡ start_event seen started closed (option_copied known.entry) }
{
    if (seen || is_known_live(known)) && !started && !closed && is_handed_over(known) {
        Some(AccountEvent::Started)
    } else {
        None
    }
}

// That a job which was seen is no longer live.
fn closing_event(seen: bool, closed: bool, known: Option<&KnownJob>) -> Option<AccountEvent>
    ensures { result ≡ closing_event seen closed (option_copied known.entry) }
{
    if !seen || closed {
        return None;
    }
    let closing = closing_of(known)?;
    Some(AccountEvent::Closed(closing))
}

fn live_owner(known: Option<&KnownJob>) -> Option<Owner>
    ensures { result ≡ live_owner (option_copied known.entry) }
{
    match known {
        Some(KnownJob::Live(owner, _)) => Some(*owner),
        _ => None,
    }
}

fn is_known_live(known: Option<&KnownJob>) -> bool
    ensures { result ≡ is_known_live (option_copied known.entry) }
{
    matches!(known, Some(KnownJob::Live(_, _)))
}

fn is_handed_over(known: Option<&KnownJob>) -> bool
    ensures { result ≡ is_handed_over (option_copied known.entry) }
{
    match known {
        Some(KnownJob::Live(_, runs)) => *runs,
        Some(KnownJob::Done(Fate::Removed)) => false,
        Some(KnownJob::Done(_)) => true,
        None => false,
    }
}

// Why the job is no longer live; none for a live one.
fn closing_of(known: Option<&KnownJob>) -> Option<Closing>
    ensures { result ≡ closing_of (option_copied known.entry) }
{
    match known {
        Some(KnownJob::Live(_, _)) => None,
        Some(KnownJob::Done(Fate::Finished(Ending::NotStarted))) => Some(Closing::NotStarted),
        Some(KnownJob::Done(Fate::Finished(_))) => Some(Closing::Finished),
        Some(KnownJob::Done(Fate::Interrupted)) => Some(Closing::Interrupted),
        Some(KnownJob::Done(Fate::Removed)) => Some(Closing::Removed),
        None => Some(Closing::Lost),
    }
}
