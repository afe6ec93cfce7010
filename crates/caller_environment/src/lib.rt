//! What the launcher takes from its caller, as functions of texts: tool, variables, user, zone, spool, the machine's
//! lists. A job's environment is that of the process, with two variables set.
#![tactic(auto)]

mod digits;
mod fields;
mod machine_lists;
mod paths;
mod spool_place;
mod status;
mod tool_name;
mod tool_table;
mod tool_words;
mod user_table;
mod variables;
mod zone_path;
mod zone_rule;

pub use machine_lists::may_use_machine;
pub use spool_place::{MeantSpool, SpoolSources, meant_spool};
pub use status::user_number_in;
pub use tool_name::ToolName;
pub use tool_table::{SpoolSource, Submits, TOOLS, ToolRow, row_of_tool};
pub use tool_words::take_tool;
pub use user_table::{home_in, name_in_user_line, user_line};
pub use variables::{CallerSettings, job_variables};
pub use zone_path::{UTC_NAMES, is_utc_name, zone_file};
pub use zone_rule::{MAX_RULE, MAX_ZONE_FILE, rule_in};
