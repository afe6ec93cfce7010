//! Places, replaces, reads and removes whole files. After a crash a replaced file is the old one or the new one; the
//! new one is durable once placed.
#![tactic(auto)]

mod clear_file;
mod place_file;
mod replace_file;
mod temporary;
mod whole_content;

pub use clear_file::clear;
pub use place_file::place;
pub use replace_file::replace;
pub use temporary::temporary_name;
pub use whole_content::{content, first_bytes, whole};
