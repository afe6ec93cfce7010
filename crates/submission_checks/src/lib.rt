//! All checks of a submission before its session: caller, clock, zone, time, commands; and the text of the job. The
//! first failing check decides, and nothing after it is read.
#![tactic(auto)]

mod commands;
mod prepare_job;
mod submission;
mod times;

pub use prepare_job::prepare;
pub use submission::Submission;
