//! The one-minute load in the text of `/proc/loadavg`, in hundredths. The value is that of the first field, or there is
//! none.
#![tactic(auto)]

mod load;

pub use load::{MAX_DIGITS, hundredths};
