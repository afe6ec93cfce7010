//! The texts of `--help`, `--version` and hints. Each text is that of its specification.
#![tactic(auto)]

mod help;
mod hint;
mod hint_texts;
mod spool_trouble;
mod version;

pub use help::help_text;
pub use hint::{Hint, hint_of};
pub use hint_texts::{ListsFound, access_hint, help_hint, hint_line, lock_hint};
pub use spool_trouble::{SpoolTrouble, spool_hint};
pub use version::{VERSION, is_record_of, version_text};
