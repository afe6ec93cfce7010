//! The order in which jobs start.
ghost use Rattle.std.specs.Prelude.{◌≡◌, ℕ, IsTrue, IfOk, IfSome, IfNone, [], map, filter};
ghost use Rattle.queue_rules.specs.Order.{is_pending, is_ready, is_ready_job, is_ready_batch, place_in_queue, places_of, AreInDueOrder, IsFirstOf, IsFirstBatch};

use crate::{is_batch, is_due};
use spool_model::{Row, State};
use std::alloc::{AllocError, Global};

// No program calls it: it is the definition as a plain program, with which tests compare the lines of a store.
/// The numbers of all ready jobs outside the batch queues, by minute, then number.
pub fn due_order(alloc: Global, rows: &[Row], now: i64) -> Result<Vec<u32>, AllocError>
    ensures { IfOk result (λ numbers. AreInDueOrder rows.now now numbers.items) }
{
    let mut places = ready_places(alloc, rows, now)?;
    places.sort_unstable();
    numbers_of_places(alloc, &places)
}

// The numbers of places.
fn numbers_of_places(alloc: Global, places: &[(u32, u32)]) -> Result<Vec<u32>, AllocError>
    ensures { IfOk result (λ numbers. numbers.items ≡ map (λ place. place.1) places.now) }
{
    places.iter().map(|place| place.1).collect(alloc)
}

// The places of all ready jobs outside the batch queues.
fn ready_places(alloc: Global, rows: &[Row], now: i64) -> Result<Vec<(u32, u32)>, AllocError>
    ensures { IfOk result (λ places. places.items ≡ map place_in_queue (filter (is_ready_job now) rows.now)) }
{
    rows.iter()
        .filter(|row| is_ready(row, now) && !is_batch(row.queue))
        .map(queue_place)
        .collect(alloc)
}

// No program calls it either.
/// The number of the first ready job of the batch queues, by minute, then number.
pub fn first_batch(rows: &[Row], now: i64) -> Option<u32>
    ensures some { IfSome result (IsFirstBatch rows.now now) }
    ensures none { IfNone result (places_of (is_ready_batch now) rows.now ≡ []) }
{
    let place = first_batch_place(rows, now)?;
    Some(place.1)
}

// The first place of a ready job of the batch queues.
fn first_batch_place(rows: &[Row], now: i64) -> Option<(u32, u32)>
    ensures some { IfSome result (IsFirstOf (places_of (is_ready_batch now) rows.now)) }
    ensures none { IfNone result (places_of (is_ready_batch now) rows.now ≡ []) }
{
    rows.iter()
        .filter(|row| is_ready(row, now) && is_batch(row.queue))
        .map(queue_place)
        .min()
}

// Whether the job waits, and its minute has begun.
fn is_ready(row: &Row, now: i64) -> bool
    ensures { result ≡ is_ready now row.now }
{
    row.state == State::Pending && is_due(row, now)
}

// The place in the line.
fn queue_place(row: &Row) -> (u32, u32)
    ensures { result ≡ place_in_queue row.now }
{
    (row.minute, row.number)
}
