//! Whether an entry of a crontab is due at a minute, and the commands of its job. Both are exact.
#![tactic(auto)]

mod commands;
mod due;
mod pieces;

pub use commands::commands_of;
pub use due::{is_date_due, matches};
