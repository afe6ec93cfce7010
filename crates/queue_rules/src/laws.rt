//! What the order of starts says of the numbers in it.
ghost use Rattle.std.specs.Prelude.{◌≢◌, ℕ, List, All};
ghost use Rattle.queue_rules.specs.Order.{AreInDueOrder, Differ, IsFirstBatch, IsNumberOf, is_ready_batch, is_ready_job, row_numbers};

use spool_model::Row;

/// Each number that may start is that of a ready row, and where the rows' numbers differ, so do
/// these: a start of one of them leaves the others ready.
pub fn starts_are_ready_and_apart(rows: &[Row], now: i64)
    ensures jobs { (numbers : List ℕ) → AreInDueOrder rows.now now numbers
        → All (IsNumberOf (is_ready_job now) rows.now) numbers }
    ensures batch { (number : ℕ) → IsFirstBatch rows.now now number
        → IsNumberOf (is_ready_batch now) rows.now number }
    ensures differ { (numbers : List ℕ) → Differ (row_numbers rows.now)
        → AreInDueOrder rows.now now numbers → Differ numbers }
    ensures apart { (numbers : List ℕ) (number : ℕ) → Differ (row_numbers rows.now)
        → AreInDueOrder rows.now now numbers → IsFirstBatch rows.now now number
        → All (λ other. other ≢ number) numbers }
{
    let _ = rows;
    let _ = now;
}
