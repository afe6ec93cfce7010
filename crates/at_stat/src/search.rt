//! A number, sought among rows and among numbers of jobs that are done.
ghost use Rattle.std.specs.Prelude.{◌≡◌, ◌≤◌, ◌<◌, Contains, IfNone, IfSome, None, Some, length, map};
ghost use Rattle.std.specs.List.Sorted.{IsPartitionPoint};
ghost use Rattle.spool_model.specs.declared.entry.Entry.TheVariants.{Done};
ghost use Rattle.spool_store.specs.Listed.{AreSortedEntries, entry_under};
ghost use Rattle.spool_store.specs.Rows.{decided_entry, row_entry};

use spool_model::{Decided, Fate, Row};

// The row of this number.
pub(crate) fn row_of(rows: &[Row], number: u32) -> Option<&Row>
    requires { AreSortedEntries (map row_entry rows.now) }
    ensures found { IfSome result (λ row. entry_under (map row_entry rows.now) number ≡ Some (row_entry row.now).1) }
    ensures number { IfSome result (λ row. row.now.number ≡ number) }
    ensures held { IfSome result (λ row. Contains rows.now row.now) }
    ensures absent { IfNone result (entry_under (map row_entry rows.now) number ≡ None) }
{
    let row = rows.get(row_place(rows, number))?;
    if row.number == number {
        Some(row)
    } else {
        None
    }
}

// How many rows have a smaller number.
fn row_place(rows: &[Row], number: u32) -> usize
    requires { AreSortedEntries (map row_entry rows.now) }
    ensures bound { result ≤ length rows.now }
    ensures place { IsPartitionPoint (λ row. row.number < number) (λ row. number ≤ row.number) rows.now result }
{
    rows.partition_point(|row| row.number < number)
}

// The fate of the job of this number.
pub(crate) fn fate_of_number(decided: &[Decided], number: u32) -> Option<Fate>
    requires { AreSortedEntries (map decided_entry decided.now) }
    ensures found { IfSome result (λ fate. entry_under (map decided_entry decided.now) number ≡ Some (Done fate)) }
    ensures absent { IfNone result (entry_under (map decided_entry decided.now) number ≡ None) }
{
    let done = decided.get(place_of_decided(decided, number))?;
    if done.number == number {
        Some(done.fate)
    } else {
        None
    }
}

// How many numbers of jobs that are done are smaller.
fn place_of_decided(decided: &[Decided], number: u32) -> usize
    requires { AreSortedEntries (map decided_entry decided.now) }
    ensures bound { result ≤ length decided.now }
    ensures place { IsPartitionPoint (λ done. done.number < number) (λ done. number ≤ done.number) decided.now result }
{
    decided.partition_point(|done| done.number < number)
}
