//! How many done jobs a turn leaves.
ghost use Rattle.std.specs.Prelude.{◌≡◌, IfOk};
ghost use Rattle.daemon_turn.specs.StartOrder.{forgotten_steps};

use crate::TurnStep;
use spool_store::Store;
use std::alloc::{AllocError, Global};

// The steps that forget the lowest of the done jobs, as many as are too many.
pub(crate) fn forgotten_steps(alloc: Global, store: &Store) -> Result<Vec<TurnStep>, AllocError>
    ensures { IfOk result (λ steps. steps.items ≡ forgotten_steps store.now.table) }
{
    let numbers = store.surplus(alloc)?;
    numbers
        .as_slice()
        .iter()
        .map(|number| TurnStep::Forgotten(*number))
        .collect(alloc)
}
