//! Every printed line, date, cause and exit status. Each text is exact to the byte.
//!
//! Each text is exact to the byte.
#![tactic(auto)]

mod cause;
mod date;
mod lines;
mod refusal;
mod status;
mod turn_step;

pub use cause::{Cause, cause_line, fault_line};
pub use date::date_text;
pub use lines::{accepted_line, put_queue_line, queue_line};
pub use refusal::Refusal;
pub use status::Status;
pub use turn_step::{TurnStepText, turn_line};
