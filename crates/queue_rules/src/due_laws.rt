//! What the start of a line says of the rows.
ghost use Rattle.std.specs.Prelude.{◌≡◌, ◌↔◌, ◌∷◌, ℤ, List, [], map};
ghost use Rattle.spool_model.specs.declared.row.Row.{Row};
ghost use Rattle.queue_rules.specs.Order.{AreInDueOrder, IsFirstBatch, is_ready_batch, is_ready_job, places_of};
ghost use Rattle.queue_rules.specs.declared.due.Due.{Due};
ghost use Rattle.queue_rules.specs.Dues.{IsLineOf};

/// The jobs that are ready, in line, are those in due order; and the first of the batch queues is the first
/// batch job, where there is one.
pub fn prefixes_are_the_due_order()
    ensures jobs { (rows : List Row) (now : ℤ) (due_jobs : List Due) → IsLineOf (is_ready_job now) rows due_jobs
        → AreInDueOrder rows now (map (λ due. due.number) due_jobs) }
    ensures batch { (rows : List Row) (now : ℤ) (due : Due) (later : List Due)
        → IsLineOf (is_ready_batch now) rows (due ∷ later) → IsFirstBatch rows now due.number }
    ensures none { (rows : List Row) (now : ℤ) → IsLineOf (is_ready_batch now) rows []
        → places_of (is_ready_batch now) rows ≡ [] }
{}
