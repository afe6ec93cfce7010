//! The rows of a listing: which, and in which order.
ghost use Rattle.std.specs.Prelude.{◌≡◌, ◌&&◌, AllPairs, IfOk, IsPermutation, filter};
ghost use Rattle.command_rules.specs.Requested.{passes_of};
ghost use Rattle.listing_text.specs.Listing.{IsListedBefore, may_see, passes_letter, passes_numbers};
ghost use Rattle.queue_rules.specs.Order.{Differ, place_in_queue, row_numbers};

use at_words::Filter;
use spool_model::{Row, State, UserName};
use spool_session::is_seen_by;
use std::alloc::{AllocError, Global};

// The rows that the user may see and the filter lets pass.
pub(crate) fn seen_rows(
    alloc: Global,
    rows: &[Row],
    user: &UserName,
    which: &Filter,
) -> Result<Vec<Row>, AllocError>
    ensures { IfOk result (λ seen.
        seen.items ≡ filter (λ row. may_see user.now row && passes_of which.now row) rows.now) }
{
    rows.iter()
        .filter(|row| is_seen_by(row, user) && passes(row, which))
        .copied()
        .collect(alloc)
}

// Whether the filter lets the row pass.
fn passes(row: &Row, which: &Filter) -> bool
    ensures { result ≡ passes_of which.now row.now }
{
    match which {
        Filter::All => true,
        Filter::Queue(letter) => is_shown_with(row, *letter),
        Filter::Numbers(numbers) => is_of(row, numbers.as_slice()),
    }
}

// Whether the row is shown with the letter.
fn is_shown_with(row: &Row, letter: u8) -> bool
    ensures { result ≡ passes_letter letter row.now }
{
    match row.state {
        State::Pending => row.queue == letter,
        State::Running(_) => letter == b'=',
    }
}

// Whether the row is that of one of the numbers.
fn is_of(row: &Row, numbers: &[u32]) -> bool
    ensures { result ≡ passes_numbers numbers.now row.now }
{
    numbers.iter().any(|number| row.number == *number)
}

/// Brings rows of different numbers in order by minute, then number.
pub fn sort_rows(rows: &mut Vec<Row>)
    requires { Differ (row_numbers rows.old.items) }
    ensures same { IsPermutation rows.old.items rows.new.items }
    ensures ordered { AllPairs IsListedBefore rows.new.items }
{
    rows.sort_unstable_by_key(listing_place);
}

// The place in the listing.
fn listing_place(row: &Row) -> (u32, u32)
    ensures { result ≡ place_in_queue row.now }
{
    (row.minute, row.number)
}
