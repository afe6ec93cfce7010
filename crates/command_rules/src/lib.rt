//! What a command is to do: checks in order, verdict, steps, texts, what is left. A refusal changes nothing; a crash
//! leaves a prefix of the steps.
//!
//! Its definitions are what a reader of `command` believes, and not what runs. In the order in which to read them:
//! 1. `Sinks` of tool_output: what is put on a sink, whole, as a prefix, or not at all
//! 2. `Causes` of tool_output: the cause that each fault of a call becomes
//! 3. `Times`: the minute that the time of a submission means
//! 4. `Checks` and `Found`: a check and its place in the order; what a command found outside
//! 5. `Verdict`: the refusal that comes earliest, or none (`verdict_of`)
//! 6. `Requested`: the steps of a request, and what it prints where it is done (`steps_of_request`, `IsAskedText`)
//! 7. `Spool` and `Sessions`: what is left in the spool, by the cause (`SpoolEnds`), and in its session (`CommandWorks`)
//! 8. `CommandEnds`: all of this in one record, for every request
//! 9. `Laws`: what follows of it
#![tactic(auto)]

mod laws;
mod list_names;

pub use laws::{
    crashes_leave_prefixes, finished_work_is_kept, refusals_change_nothing, what_is_allowed_is_done,
};
pub use list_names::{allow_name, deny_name};
pub use tool_output::{Caller, CommandError, cause_of_put, cause_of_words};
