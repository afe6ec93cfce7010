//! What the installed program asks of the system around a call, as a trait. Each question is recorded with its answer, in
//! order, for every implementation; the record has no bytes and is read by clauses alone.
//!
//! `TracedSystem` records what is asked of a system that records nothing, and asks it once for each question.
//! `ProcessSystem` is that of the process: which call of the runtime answers a question is read and tested, not proved.
#![tactic(auto)]

mod call;
mod call_trace;
mod file_read;
mod process_files;
mod process_system;
mod process_users;
mod raw_system;
mod recorded_bytes;
mod system;
mod traced_system;

pub use call::{Answered, FileKind, FileStatus, LockAttempt, ReadOutcome, VariableOutcome};
pub use call_trace::CallTrace;
pub use file_read::FileRead;
pub use process_system::ProcessSystem;
pub use raw_system::RawSystem;
pub use system::System;
pub use traced_system::TracedSystem;
