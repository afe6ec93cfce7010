//! Which jobs are refused, and the exit status of a job.
ghost use Rattle.std.specs.Prelude.{◌≡◌};
ghost use Rattle.command_rules.specs.Verdict.{live_row};
ghost use Rattle.at_stat.specs.Checks.{code_of_fate, code_of_named, code_of_stage, done_code, named_check, numbers_check, owner_check, which_check};

use crate::{JobStage, stage_of};
use at_words::Filter;
use host_calls::Ending;
use listing_text::Refusal;
use spool_model::{Fate, UserName};
use spool_session::refusal_of_row;
use spool_store::Store;

// The greatest exit status.
const LAST_CODE: u8 = 255;

// The exit status of a job that could not be started.
const NOT_STARTED: u8 = 125;

// The exit status of a job of which nobody knows how it ended.
const INTERRUPTED: u8 = 124;

// The exit status of a job that was removed.
const REMOVED: u8 = 123;

// The exit status of a job of which nothing is known.
const FORGOTTEN: u8 = 122;

// The exit status of a job that a signal ended is so much more than the signal.
const SIGNALS: u8 = 128;

// The first refusal of the jobs that are requested by their numbers.
pub(crate) fn stat_refusal(store: &Store, user: &UserName, which: &Filter) -> Option<Refusal>
    ensures { result ≡ which_check user.now store.now.table which.now }
{
    match which {
        Filter::All => None,
        Filter::Queue(_) => None,
        Filter::Numbers(numbers) => refusal_of_numbers(store, user, numbers.as_slice()),
    }
}

// The first refusal of these numbers.
fn refusal_of_numbers(store: &Store, user: &UserName, numbers: &[u32]) -> Option<Refusal>
    ensures { result ≡ numbers_check user.now store.now.table numbers.now }
{
    for number in numbers {
        let refusal = refusal_of_number(store, user, *number);
        if refusal.is_some() {
            return refusal;
        }
    }
    None
}

// The refusal of a number that was never drawn, or of a job of another.
fn refusal_of_number(store: &Store, user: &UserName, number: u32) -> Option<Refusal>
    ensures { result ≡ named_check user.now store.now.table number }
{
    if number >= 1 && number <= store.last() {
        refusal_of_owner(store, user, number)
    } else {
        Some(Refusal::NoSuchJob(number))
    }
}

// The refusal of a live job of another.
fn refusal_of_owner(store: &Store, user: &UserName, number: u32) -> Option<Refusal>
    ensures { result ≡ owner_check user.now number (live_row store.now.table number) }
{
    match store.row(number) {
        None => None,
        Some(row) => refusal_of_row(row, user, false, number),
    }
}

// The exit status where all was done: where the end of exactly one named job was waited for, that of the job.
pub(crate) fn done_code(wait: Option<u64>, which: &Filter, store: &Store) -> u8
    ensures { result ≡ done_code wait which.now store.now.table }
{
    match (wait, which) {
        (Some(_), Filter::Numbers(numbers)) => code_of_named(numbers.as_slice(), store),
        _ => 0,
    }
}

fn code_of_named(numbers: &[u32], store: &Store) -> u8
    ensures { result ≡ code_of_named store.now.table numbers.now }
{
    match numbers {
        [number] => code_of_stage(&stage_of(store, *number)),
        _ => 0,
    }
}

fn code_of_stage(stage: &JobStage) -> u8
    ensures { result ≡ code_of_stage stage.now }
{
    match stage {
        JobStage::Live(_) => 0,
        JobStage::Done(fate) => code_of_fate(fate),
        JobStage::Forgotten => FORGOTTEN,
    }
}

fn code_of_fate(fate: &Fate) -> u8
    ensures { result ≡ code_of_fate fate.now }
{
    match fate {
        Fate::Finished(Ending::Exit(code)) => *code,
        Fate::Finished(Ending::Signal(signal)) => SIGNALS + (*signal).min(LAST_CODE - SIGNALS),
        Fate::Finished(Ending::NotStarted) => NOT_STARTED,
        Fate::Interrupted => INTERRUPTED,
        Fate::Removed => REMOVED,
    }
}
