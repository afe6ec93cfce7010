//! The session of a command: lists of users, recovery, checks of the jobs that it names. The work is done in one
//! session; a refused user changes nothing.
#![tactic(auto)]

mod jobs;
mod lists;
mod opening;
mod session;

pub use jobs::{is_seen_by, refusal_of_jobs, refusal_of_row};
pub use opening::open_store;
pub use session::in_command_session;
