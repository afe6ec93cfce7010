//! The program of atcheck: lines of all faults, salvage on request. If a line cannot be written nothing is saved, and at each
//! moment the new directory shows no job or the saved table; the old one is unchanged.
//!
//! Its definitions are what a reader of `check_program` believes. In the order in which to read them:
//! 1. `Words`: what the words request
//! 2. `Outside`: the two directories and the streams that it works with
//! 3. `FaultLines`: the lines of the faults, and the cause by them
//! 4. `CheckOutcome`: what is left in the two directories, and how it ends
//!
//! A salvage writes the journal first, then the files of jobs, each a copy, and the sequence file last. A directory without a
//! sequence file shows no job, whatever else it has, so a crash on the way leaves a directory that shows no job, or all
//! that is saved. A second salvage refuses such a directory from its first file on.
#![tactic(auto)]

mod copying;
mod fault;
mod filling;
mod lines;
mod program;
mod salvaging;
mod save;
mod session;
mod source;
mod target;
mod words;

pub use fault::SalvageFault;
pub use filling::fill_target;
pub use program::check_program;
pub use salvaging::salvage;
pub use spool_faults::{FaultList, faults};
