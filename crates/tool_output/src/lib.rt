//! What all tools share: callers, causes, lines of output, the line of a cause, the end of a turn. Lines are written in
//! order: all, or a prefix after a fault.
//!
//! The name of the tool is handed in.
#![tactic(auto)]

mod caller;
mod cause_line;
mod command_error;
mod lines;
mod put_cause;
mod steps;
mod whole;
mod word_faults;

pub use caller::Caller;
pub use cause_line::{cause_of_end, say_cause, say_end};
pub use command_error::CommandError;
pub use lines::{PrintedLine, put_lines};
pub use put_cause::cause_of_put;
pub use whole::put_whole;
pub use word_faults::cause_of_words;
