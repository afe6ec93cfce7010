//! The daemon at work: turns with rests between them, their lines, its last line and status. At most the requested
//! turns are made; output and status are exact.
#![tactic(auto)]

mod laws;
mod next_turn;
mod outcome;
mod outcome_line;
mod progress;
mod serve_loop;

pub use laws::{serving_ends_well, small_servings};
pub use outcome::ServeOutcome;
pub use serve_loop::serve;
