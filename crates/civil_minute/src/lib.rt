//! Time zones, civil dates and times, and the minute that a time means. A time means one minute, or has one reason why
//! it has none.
#![tactic(auto)]

mod civil;
mod fault;
mod later;
mod minute;
mod picked;
mod zone;

pub use civil::{CivilMinute, civil_of};
pub use fault::DateFault;
pub use minute::{minute_of, minute_of_touch};
pub use zone::{Zone, is_unreadable, zone_of};
