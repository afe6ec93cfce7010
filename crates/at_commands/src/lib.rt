//! The commands `at`, `batch`, `atq`, `atrm` and `atd`: dispatch, sessions, removal, output. Status, effect and output are
//! exact, to the byte, and a crash leaves a prefix of the steps.
#![tactic(auto)]

mod cause;
mod lines;
mod list;
mod removal;
mod remove;
mod run_command;
mod show;
mod submit;

pub use command_rules::Caller;
pub use removal::remove_jobs;
pub use run_command::command;
pub use serving::serve;
