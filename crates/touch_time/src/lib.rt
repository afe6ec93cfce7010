//! The times of `at -t`, spelled as for touch. Each text is one time or none.
#![tactic(auto)]

mod reader;
mod touch;

pub use touch::{TouchTime, read_touch};
