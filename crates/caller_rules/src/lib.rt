//! Decides what the installed program asks the system about: who may call, whose a spool is, where it is. Each decision is a
//! function of the answers that it asked for, and asks nothing else.
#![tactic(auto)]

mod admission;
mod daemon_locks;
mod daemon_request;
mod daemon_start;
mod file_status;
mod machine_lists;
mod notes;
mod option_value;
mod own_spool;
mod permission;
mod spool_paths;
mod spool_use;
mod tool_spool;
mod user;

pub use admission::{Admission, admit};
pub use daemon_locks::{lock_name, take_atd_locks, take_daemon_lock};
pub use daemon_request::{request_daemon, starts_daemons};
pub use daemon_start::{begins_trim, has_option, is_daemon_run, may_begin};
pub use file_status::{
    is_directory_there, is_directory_there_of, is_link_there, is_owned_by, is_same_directory,
};
pub use machine_lists::{LISTS, LONGEST_LIST, MachineList, may_call};
pub use notes::{has_notes, is_endless};
pub use option_value::last_value;
pub use own_spool::{DAEMON_LOCK, make_own, make_spool};
pub use permission::{SpoolStatuses, may_save_into, may_work_at, may_work_on};
pub use spool_paths::{SpoolPaths, path_within, paths_of};
pub use spool_use::{SpoolUse, use_of_spool};
pub use tool_spool::{ToolSpool, callers_spool};
pub use user::CallingUser;
