//! The names of job files: queue, number and minute, in the new form and the old one. A job has one name in each form,
//! and a name one job.
#![tactic(auto)]

mod job;
mod laws;

pub use job::{JobName, LENGTH};
pub use laws::names_are_of_one_job;
