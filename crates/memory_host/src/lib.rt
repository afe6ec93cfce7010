//! The outside in memory: files, clock, inputs and children, with planned failures, a crash at any call, and reboots.
//! Every clause of the traits holds, with content; a call fails exactly where its plan says.
//!
//! It keeps the files that it was made with and each call that changed them. What it runs on is kept
//! next to, so that the time of a call grows with its own work and not with the calls before it.
#![tactic(auto)]

mod bodies;
mod body;
mod call_list;
mod changes;
mod child_plans;
mod failing_list;
mod files;
mod held;
mod host;
mod inputs;
mod laws;
mod memory_host;
mod name_table;
mod past;
mod past_call;
mod pending;
mod plan;
mod planned;
mod readings;
mod sink;
mod turn;

pub use call_list::CallList;
pub use child_plans::{ChildPlan, ChildPlans};
pub use failing_list::{Failing, FailingList, Part};
pub use files::Files;
pub use inputs::MemoryInputs;
pub use laws::{
    children_answer_as_planned, faults_are_planned, inputs_keep_to_content,
    quiet_hosts_have_no_fault, readings_keep_to_lists, sinks_keep_to_puts, spellings_tell_plans,
};
pub use memory_host::MemoryHost;
pub use plan::Plan;
pub use readings::ListReadings;
pub use sink::MemorySink;
