//! Each program over what it is lent: a directory, the target of a salvage, the clock, the input and two outputs. All
//! clauses of the program hold, for every host and for every witness.
//!
//! `run_program` runs a program over what it is lent, so a caller that sees these things afterwards sees what was done.
//! `real_system` makes the real ones, next to any witness, and `run_alone` is a main without the launcher.
#![tactic(auto)]

mod account;
mod alone;
mod check;
mod commands;
mod cron;
mod directories;
mod exit;
mod made;
mod noting;
mod post;
mod program;
mod program_exit;
mod real_run;
mod run;
mod stat;
mod streams;
mod system;
mod system_plan;
mod target;
mod witnesses;

pub use account::run_account;
pub use alone::run_alone;
pub use check::run_check;
pub use commands::run_commands;
pub use cron::{run_cron, run_next};
pub use directories::{RealDirectory, existing_directory, new_directory, spool_directory};
pub use exit::exit_code;
pub use made::{RealSystem, real_system};
pub use post::{run_post, run_post_after_trim, run_trim};
pub use program::Program;
pub use program_exit::ProgramExit;
pub use real_run::{RealRun, run_on_real_system};
pub use run::run_program;
pub use stat::run_stat;
pub use streams::{
    RealClock, RealErrors, RealInput, RealOutput, real_clock, real_errors, real_input, real_output,
    watching_clock,
};
pub use system::ProgramSystem;
pub use system_plan::SystemPlan;
pub use target::SalvageTarget;
pub use witnesses::{UNCHECKED, Witnesses};
