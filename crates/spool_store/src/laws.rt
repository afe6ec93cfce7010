//! What the lists of a store say of its table, and what other files than its own are to it, each law as the contract of
//! a function.
ghost use Rattle.spool_store.specs.Beside.{ClearingsBesideShowTheSame, PlacingsBesideShowTheSame, StoresStayCurrentAfterClearings, StoresStayCurrentAfterPlacings};
ghost use Rattle.spool_store.specs.Laws.{DecidedAreDone, RowsAreLive, SubmissionsAddOneJob};

/// The rows and finished numbers that list a table are the ones that a function of it gives.
pub fn lists_are_of_the_table()
    ensures rows { RowsAreLive }
    ensures decided { DecidedAreDone }
{}

/// A submission adds one live job at most.
pub fn submissions_add_one_job()
    ensures { SubmissionsAddOneJob }
{}

/// Where files next to the store's alone are placed or removed, whole or in part, each image shows what it showed.
pub fn changes_beside_show_the_same()
    ensures placings { PlacingsBesideShowTheSame }
    ensures clearings { ClearingsBesideShowTheSame }
{}

/// A store that is current stays so where files next to its own were placed or removed.
pub fn stores_stay_current_beside()
    ensures placings { StoresStayCurrentAfterPlacings }
    ensures clearings { StoresStayCurrentAfterClearings }
{}
