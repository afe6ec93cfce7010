//! The numbers that are requested.
ghost use Rattle.std.specs.Prelude.{◌≡◌, ◌&&◌, IfOk, filter, map};
ghost use Rattle.listing_text.specs.Listing.{may_see};
ghost use Rattle.queue_rules.specs.Order.{row_numbers};
ghost use Rattle.at_stat.specs.Reports.{AreAsked, AreLiveIn, is_in_queue};

use at_words::Filter;
use job_listing::sort_rows;
use spool_model::{Decided, Row, UserName};
use spool_session::is_seen_by;
use spool_store::Store;
use std::alloc::{AllocError, Global};

/// The numbers that are requested, in order: those of live jobs that the user may see, by minute, then number, and then
/// those of jobs that are done; those of the live jobs of a queue alone; or those that are named.
pub fn asked_numbers(
    alloc: Global,
    store: &Store,
    user: &UserName,
    which: &Filter,
) -> Result<Vec<u32>, AllocError>
    ensures { IfOk result (λ numbers. AreAsked store.now.table user.now which.now numbers.items) }
{
    match which {
        Filter::All => all_numbers(alloc, store, user),
        Filter::Queue(letter) => listed_live_numbers(alloc, store, user, Some(*letter)),
        Filter::Numbers(numbers) => Vec::from_slice(alloc, numbers.as_slice()),
    }
}

// The numbers of live jobs that the user may see, and then those of jobs that are done.
fn all_numbers(alloc: Global, store: &Store, user: &UserName) -> Result<Vec<u32>, AllocError>
    ensures { IfOk result (λ numbers. AreAsked store.now.table user.now Filter.All numbers.items) }
{
    let mut numbers = listed_live_numbers(alloc, store, user, None)?;
    let done = numbers_of_done(alloc, store.decided())?;
    numbers.extend_from_slice(&done)?;
    Ok(numbers)
}

fn numbers_of_done(alloc: Global, decided: &[Decided]) -> Result<Vec<u32>, AllocError>
    ensures { IfOk result (λ numbers. numbers.items ≡ map (λ done. done.number) decided.now) }
{
    decided.iter().map(|done| done.number).collect(alloc)
}

// The numbers of live jobs that the user may see, by minute, then number: those of the queue, where there is one.
fn listed_live_numbers(
    alloc: Global,
    store: &Store,
    user: &UserName,
    queue: Option<u8>,
) -> Result<Vec<u32>, AllocError>
    ensures { IfOk result (λ numbers. AreLiveIn store.now.table user.now queue numbers.items) }
{
    let mut rows = rows_in_queue(alloc, store.rows(), user, queue)?;
    sort_rows(&mut rows);
    numbers_of_rows(alloc, &rows)
}

fn numbers_of_rows(alloc: Global, rows: &[Row]) -> Result<Vec<u32>, AllocError>
    ensures { IfOk result (λ numbers. numbers.items ≡ row_numbers rows.now) }
{
    rows.iter().map(|row| row.number).collect(alloc)
}

// The rows that the user may see, of the queue where there is one.
fn rows_in_queue(
    alloc: Global,
    rows: &[Row],
    user: &UserName,
    queue: Option<u8>,
) -> Result<Vec<Row>, AllocError>
    ensures { IfOk result (λ seen.
        seen.items ≡ filter (λ row. may_see user.now row && is_in_queue queue row) rows.now) }
{
    rows.iter()
        .filter(|row| is_seen_by(row, user) && is_in_queue(row, queue))
        .copied()
        .collect(alloc)
}

/// Whether the job is in the queue, where there is one.
pub fn is_in_queue(row: &Row, queue: Option<u8>) -> bool
    ensures { result ≡ is_in_queue queue row.now }
{
    match queue {
        Some(letter) => row.queue == letter,
        None => true,
    }
}
