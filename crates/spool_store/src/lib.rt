//! The store of jobs: recovery, submission, each step of a job, rows, scripts. A crash leaves a prefix of a call's
//! steps; Ok: all of them are durable.
#![tactic(auto)]

mod changes;
mod directory_scan;
mod job_rows;
mod jobs;
mod laws;
mod mark;
mod recovery;
mod scanned_files;
mod scanned_job;
mod scripts;
mod sorted;
mod starts;
mod steps;
mod store;
mod submit;
mod surplus;
mod tables;

pub use host_calls::StoreFault;
pub(crate) use jobs::Jobs;
pub use laws::{
    changes_beside_show_the_same, lists_are_of_the_table, stores_stay_current_beside,
    submissions_add_one_job,
};
pub use queue_rules::Due;
pub use spool_model::MAX_LIVE;
pub use store::Store;
