//! Lists the jobs that a user may see, and prints their scripts. The lines are exact, by minute, then number.
#![tactic(auto)]

mod lines;
mod listed;
mod rows;
mod scripts;

pub use listed::job_listing_text;
pub use rows::sort_rows;
pub use scripts::put_scripts;
