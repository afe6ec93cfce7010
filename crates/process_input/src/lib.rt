//! What a process is given: words, variables, who calls it, umask, standard streams, a directory as first word; startup
//! errors. The umask is below 512, and each startup error has its text and status.
#![tactic(auto)]

mod caller;
mod caller_with;
mod directory;
mod environment;
mod invoker;
mod startup_error;
mod streams;
mod tool_called;
mod umask;
mod user;

pub use caller::caller_of;
pub use directory::{no_spool, take_directory};
pub use environment::{environment_variables, process_words, variable, variable_or, variables_of};
pub use invoker::{Invoker, PROCESS_STATUS, invoker_of, user_of_process};
pub use startup_error::{StartupError, say_startup_error};
pub use streams::held_streams;
pub use tool_called::called_as;
pub use umask::{umask_in, umask_of};
