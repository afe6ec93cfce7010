//! The job table: its steps, lists and laws, and the steps that a turn reports. No legal step leads back to pending; a
//! number is accepted once, directly after its draw.
//!
//! It knows nothing of files. The spool directory shows such a table, and every command is a list of such steps.
#![tactic(auto)]

mod decided;
mod entries;
mod entry;
mod fate;
mod job;
mod laws;
mod number;
mod queue;
mod row;
mod state;
mod step;
mod table;
mod turn_step;
mod user_name;

pub use decided::{Decided, MAX_DONE};
pub use entry::Entry;
pub use fate::Fate;
pub use job::Job;
pub use laws::{
    last_never_falls, no_step_leads_back_to_pending, numbers_are_accepted_once, prefixes_are_legal,
    steps_keep_the_table_sound,
};
pub use number::{LAST_NUMBER, number_digits};
pub use queue::is_batch;
pub use row::{MAX_LIVE, Row};
pub use state::State;
pub use step::Step;
pub use table::Table;
pub use turn_step::TurnStep;
pub use user_name::{MAX_USER_NAME, UserName};
