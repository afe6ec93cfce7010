//! The words of a command line, read by `clap`, as the request of `at`, `batch`, `atq`, `atrm`, `atd` or `atday`. The
//! request is a function of the words.
//!
//! Each tool's words are read by `clap` as one simple command. What a program of one command needs to read its own
//! words so is public: the command, its arguments, and what the words say of each.
#![tactic(auto)]

mod arguments;
mod at;
mod atd;
mod atday;
mod atq;
mod atrm;
mod batch;
mod builder;
mod digits;
mod fault;
mod filter;
mod jobs;
mod numbers;
mod queue;
mod tool;
mod tool_request;
mod when;
mod words;

pub use arguments::{has_flag, operands, parsed, value};
pub use atd::turns_of;
pub use atday::MAX_EVENTS;
pub use builder::{bare_command, with_flag, with_long, with_long_flag, with_operands, with_value};
pub use fault::WordsFault;
pub use filter::Filter;
pub use jobs::numbers_between;
pub use numbers::Numbers;
pub use queue::queue_letter;
pub use tool::{Tool, tool_of};
pub use tool_request::ToolRequest;
pub use when::When;
pub use words::{request, request_by};
