//! Rows and finished numbers in vectors, in the order of their numbers.
ghost use Rattle.std.specs.Prelude.{◌∷◌, [], ◌≡◌, ◌≤◌, ◌<◌, IfNone, IfSome, OnOk, OnErr, IsSome, Some, None, length, map};
ghost use Rattle.std.specs.List.Sorted.{IsPartitionPoint};
ghost use Rattle.spool_model.specs.declared.entry.Entry.TheVariants.{Live, Done};
ghost use Rattle.spool_model.specs.declared.state.State.TheVariants.{Running};
ghost use Rattle.spool_store.specs.Listed.{IsEdited, AreSortedEntries, entry_under, row_job};
ghost use Rattle.spool_store.specs.Rows.{decided_entry, row_entry};
ghost use Rattle.spool_store.specs.inside.Lined.{IsRowPut, running};

use spool_model::{Decided, Row, State};
use std::alloc::AllocError;

// How many rows have a smaller number: the place of the row of this number.
pub(crate) fn row_place(rows: &[Row], number: u32) -> usize
    requires { AreSortedEntries (map row_entry rows.now) }
    ensures bound { result ≤ length rows.now }
    ensures place { IsPartitionPoint (λ row. row.number < number) (λ row. number ≤ row.number) rows.now result }
{
    rows.partition_point(|row| row.number < number)
}

// The row of this number.
pub(crate) fn row_of_number(rows: &[Row], number: u32) -> Option<&Row>
    requires { AreSortedEntries (map row_entry rows.now) }
    ensures found { IfSome result (λ row. entry_under (map row_entry rows.now) number ≡ Some (row_entry row.now).1) }
    ensures absent { IfNone result (entry_under (map row_entry rows.now) number ≡ None) }
{
    let row = rows.get(row_place(rows, number))?;
    if row.number == number {
        Some(row)
    } else {
        None
    }
}

// How many finished numbers are smaller: the place of this number.
pub(crate) fn decided_place(decided: &[Decided], number: u32) -> usize
    requires { AreSortedEntries (map decided_entry decided.now) }
    ensures bound { result ≤ length decided.now }
    ensures place { IsPartitionPoint (λ done. done.number < number) (λ done. number ≤ done.number) decided.now result }
{
    decided.partition_point(|done| done.number < number)
}

// Takes the row of this number out, and gives it.
pub(crate) fn remove_row(rows: &mut Vec<Row>, number: u32) -> Row
    requires order { AreSortedEntries (map row_entry rows.old.items) }
    requires present { IsSome (entry_under (map row_entry rows.old.items) number) }
    ensures edited { IsEdited (map row_entry rows.old.items) (map row_entry rows.new.items) number None }
    ensures taken { IsRowPut rows.old.items result [] rows.new.items }
{
    let place = row_place(rows, number);
    rows.remove(place)
}

// Brings the row of this number to running since this second, and gives it as it was.
pub(crate) fn start_row(rows: &mut Vec<Row>, number: u32, second: i64) -> Row
    requires order { AreSortedEntries (map row_entry rows.old.items) }
    requires present { IsSome (entry_under (map row_entry rows.old.items) number) }
    ensures was { entry_under (map row_entry rows.old.items) number ≡ Some (row_entry result).1 }
    ensures started { IsEdited (map row_entry rows.old.items) (map row_entry rows.new.items) number
        (Some (Live (row_job result) (Running second))) }
    ensures put { IsRowPut rows.old.items result (running result second ∷ []) rows.new.items }
{
    let place = row_place(rows, number);
    let row = rows[place];
    rows[place] = Row {
        state: State::Running(second),
        ..row
    };
    row
}

// Puts a number that is not there among the finished ones.
pub(crate) fn insert_decided(decided: &mut Vec<Decided>, done: Decided) -> Result<(), AllocError>
    requires order { AreSortedEntries (map decided_entry decided.old.items) }
    requires absent { entry_under (map decided_entry decided.old.items) done.number ≡ None }
    ensures ok { OnOk result (IsEdited (map decided_entry decided.old.items) (map decided_entry decided.new.items)
        done.number (Some (Done done.fate))) }
    ensures err { OnErr result (decided.new.items ≡ decided.old.items) }
{
    let place = decided_place(decided, done.number);
    decided.insert(place, done)?;
    Ok(())
}

// Takes this number out of the finished ones.
pub(crate) fn remove_decided(decided: &mut Vec<Decided>, number: u32)
    requires order { AreSortedEntries (map decided_entry decided.old.items) }
    requires present { IsSome (entry_under (map decided_entry decided.old.items) number) }
    ensures { IsEdited (map decided_entry decided.old.items) (map decided_entry decided.new.items) number None }
{
    let place = decided_place(decided, number);
    decided.remove(place);
}
