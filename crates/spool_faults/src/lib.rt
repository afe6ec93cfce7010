//! All faults of a spool, and the plan of what can be saved. The list is complete and in order; no job that was started
//! is pending in what is saved.
//!
//! Its definitions are what a reader believes, and not what runs. In the order in which to read them:
//! 1. `Faults`: all faults of a directory, in the order in which recovery looks for the first of them
//! 2. `Salvaged`: the marks and files that are taken of a directory with faults, and the table that they make
//! 3. `SalvagePlan` and `Salvages`: what is to be written for them, and a directory that has it
//! 4. `Examples`: small directories, their faults and what is saved of them
//! 5. `Listed`: what listing the faults leaves
//! 6. `Laws`: the first fault is the damage that recovery answers, a directory without one is saved whole, where a mark may
//! be
//!    lost no job that no mark names is left pending, the marks that are saved can be placed, and a directory that was written
//!    from what is saved shows it
#![tactic(auto)]

mod diagnosis;
mod fault_list;
mod find_files;
mod first_files;
mod found_file;
mod job_faults;
mod laws;
mod list_faults;
mod orphans;
mod plan;
mod saved_marks;
mod scan;

pub use diagnosis::{Diagnosis, diagnose};
pub use fault_list::FaultList;
pub use laws::{
    damage_is_the_first_fault, lost_marks_leave_no_job_pending, salvaged_marks_are_sound,
    salvages_show_what_is_taken, small_directory_faults, starts_are_not_pending,
    taken_marks_are_sound,
};
pub use list_faults::faults;
pub use plan::SalvagePlan;
