//! The text of a crontab: its entries, or its first bad line. A text has one reading.
#![tactic(auto)]

mod crontab;
mod entry;
mod field;
mod laws;

pub use crontab::{CronFault, Entries, MAX_CRONTAB, read_crontab};
pub use entry::CronEntry;
pub use field::Field;
pub use laws::crontabs_have_one_reading;
