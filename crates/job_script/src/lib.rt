//! The texts of jobs: header, umask, variables, directory, commands; checks, writer, reader of headers. The text means
//! its context and commands, by the shell's rules of quoting.
#![tactic(auto)]

mod checks;
mod context;
mod fault;
mod form;
mod headers;
mod kept;
mod laws;
mod variables;
mod writer;

pub use checks::{MAX_DIRECTORY, MAX_ENVIRONMENT, check};
pub use context::Context;
pub use fault::ScriptFault;
pub use form::is_job_text;
pub use headers::{JobHeader, MAX_HEADER, header, header_fault};
pub use kept::is_without_zero;
pub use laws::{checks_are_tests, headers_are_read_exactly, texts_and_meanings_are_one_to_one};
pub use variables::Variables;
pub use writer::{MAX_COMMANDS, put_quoted, write};
