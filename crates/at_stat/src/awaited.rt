//! The jobs whose ends are waited for.
ghost use Rattle.std.specs.Prelude.{◌≡◌, ◌&&◌, IfOk, filter, is_some};
ghost use Rattle.at_stat.specs.Reports.{is_in_queue};
ghost use Rattle.listing_text.specs.Listing.{may_see};
ghost use Rattle.queue_rules.specs.Order.{row_numbers};
ghost use Rattle.command_rules.specs.Verdict.{live_row};
ghost use Rattle.at_stat.specs.Checks.{awaited_numbers, has_live, seen_numbers};

use crate::is_in_queue;
use at_words::Filter;
use spool_model::{Row, UserName};
use spool_session::is_seen_by;
use spool_store::Store;
use std::alloc::{AllocError, Global};

// The jobs whose ends are waited for: those that are named, or each live one that would be listed.
pub(crate) fn awaited_numbers(
    alloc: Global,
    store: &Store,
    user: &UserName,
    which: &Filter,
) -> Result<Vec<u32>, AllocError>
    ensures { IfOk result (λ numbers. numbers.items ≡ awaited_numbers user.now which.now store.now.table) }
{
    match which {
        Filter::All => seen_numbers(alloc, store, user, None),
        Filter::Queue(letter) => seen_numbers(alloc, store, user, Some(*letter)),
        Filter::Numbers(numbers) => Vec::from_slice(alloc, numbers.as_slice()),
    }
}

// The numbers of the live jobs that the user may see, of the queue where one is given.
fn seen_numbers(
    alloc: Global,
    store: &Store,
    user: &UserName,
    queue: Option<u8>,
) -> Result<Vec<u32>, AllocError>
    ensures { IfOk result (λ numbers. numbers.items ≡ seen_numbers user.now queue store.now.table) }
{
    numbers_of_states(alloc, store.rows(), user, queue)
}

// The numbers of the rows that the user may see, of the queue where one is given.
fn numbers_of_states(
    alloc: Global,
    rows: &[Row],
    user: &UserName,
    queue: Option<u8>,
) -> Result<Vec<u32>, AllocError>
    ensures { IfOk result (λ numbers.
        numbers.items ≡ row_numbers (filter (λ row. may_see user.now row && is_in_queue queue row) rows.now)) }
{
    rows.iter()
        .filter(|row| is_seen_by(row, user) && is_in_queue(row, queue))
        .map(|row| row.number)
        .collect(alloc)
}

// Whether one of the jobs lives.
pub(crate) fn has_live(store: &Store, numbers: &[u32]) -> bool
    ensures { result ≡ has_live store.now.table numbers.now }
{
    numbers.iter().any(|number| lives(store, *number))
}

fn lives(store: &Store, number: u32) -> bool
    ensures { result ≡ is_some (live_row store.now.table number) }
{
    store.row(number).is_some()
}
