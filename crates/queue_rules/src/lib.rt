//! The rules of queues: batch queues, due jobs, niceness, the order of starts; and the sorted lists of pending jobs. The
//! order is that of the definition, and each number in it is that of a ready job.
//!
//! Each of the two lists, of the batch queues and of the others, has exactly its pending jobs, by minute, then number, as
//! jobs come and go.
#![tactic(auto)]

mod due;
mod due_laws;
mod laws;
mod line;
mod lines;
mod order;
mod queue;

pub use due::Due;
pub use due_laws::prefixes_are_the_due_order;
pub use laws::starts_are_ready_and_apart;
pub use line::DueLine;
pub use lines::Lines;
pub use order::{due_order, first_batch};
pub use queue::{MAX_NICENESS, is_due, may_start_batch, nice_of};
pub use spool_model::is_batch;
