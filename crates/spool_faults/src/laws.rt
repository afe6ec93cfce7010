//! What holds of every directory, each law as the contract of a function.
ghost use Rattle.spool_faults.specs.Examples.{SmallDirectoriesAreSalvaged, SmallDirectoriesHaveFaults};
ghost use Rattle.spool_faults.specs.Laws.{DamageIsTheFirstFault, FaultlessDirectoriesAreSavedWhole, LostMarksLeaveNoJobPending, SalvagedMarksAreSound, SalvagesAreSavedAlike, SalvagesHaveNoFault, SalvagesShowWhatIsTaken, StartsAreNotPending, TakenMarksAreSound};

/// The faults of small directories and what is saved of them, computed.
pub fn small_directory_faults()
    ensures faults { SmallDirectoriesHaveFaults }
    ensures salvaged { SmallDirectoriesAreSalvaged }
{}

/// A directory shows its first fault; without one it shows the table that is saved of it.
pub fn damage_is_the_first_fault()
    ensures first { DamageIsTheFirstFault }
    ensures whole { FaultlessDirectoriesAreSavedWhole }
{}

/// A number that a mark of the journal starts is not pending in the table that is saved.
pub fn starts_are_not_pending()
    ensures { StartsAreNotPending }
{}

/// Where a mark may be lost, a number that no mark of the journal names is not pending in the table that is saved.
pub fn lost_marks_leave_no_job_pending()
    ensures { LostMarksLeaveNoJobPending }
{}

/// The marks that are taken of a journal are legal and can be written, so they can be placed.
pub fn taken_marks_are_sound()
    ensures { TakenMarksAreSound }
{}

/// The marks that are saved of a directory are legal and can be written, so they can be placed.
pub fn salvaged_marks_are_sound()
    ensures { SalvagedMarksAreSound }
{}

/// A directory that was written from what is saved of another shows the table that is saved, without a fault, and the
/// same is saved of it again.
pub fn salvages_show_what_is_taken()
    ensures shown { SalvagesShowWhatIsTaken }
    ensures faultless { SalvagesHaveNoFault }
    ensures again { SalvagesAreSavedAlike }
{}
