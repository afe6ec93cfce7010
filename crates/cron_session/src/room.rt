//! Room for jobs.
ghost use Rattle.std.specs.Prelude.{◌≡◌, ◌+◌, ◌≤◌, IfErr, IfOk, length, vec_capacity, vec_len};
ghost use Rattle.cron_session.specs.Steps.{HasRoomFor};
ghost use Rattle.cron_session.specs.inside.Room.{IsRoomFault};

use host_calls::Bytes;
use spool_model::LAST_NUMBER;
use spool_store::{MAX_LIVE, Store, StoreFault};

// Sees that there is room for the jobs that are due, and then a number for each, and has room for these numbers: no job is
// submitted whose number could not be written down.
pub(crate) fn check_room_and_numbers(
    store: &Store,
    due: &[Bytes],
    numbers: &mut Vec<u32>,
) -> Result<(), StoreFault>
    ensures items { numbers.new.items ≡ numbers.old.items }
    ensures room { IfOk result (λ done. HasRoomFor store.now.table (length due.now)) }
    ensures numbers { IfOk result (λ done. vec_len numbers.new + length due.now ≤ vec_capacity numbers.new) }
    ensures refused { IfErr result (IsRoomFault store.now.table (length due.now)) }
{
    check_room(store, due)?;
    numbers.reserve(due.len())?;
    Ok(())
}

// Sees that there is room for the jobs that are due, and then a number for each.
fn check_room(store: &Store, due: &[Bytes]) -> Result<(), StoreFault>
    ensures room { IfOk result (λ done. HasRoomFor store.now.table (length due.now)) }
    ensures refused { IfErr result (IsRoomFault store.now.table (length due.now)) }
{
    let count = due.len();
    if store.rows().len() + count > MAX_LIVE {
        return Err(StoreFault::QueueFull);
    }
    if store.last() as usize + count > LAST_NUMBER as usize {
        return Err(StoreFault::NumbersUsedUp);
    }
    Ok(())
}
