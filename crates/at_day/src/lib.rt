//! Simulated runs of commands, turns and reboots in memory: their events, outcomes and counts; and the program with `atday`.
//! The headline holds for every list of events, with any plan of failures.
//!
//! A run is given, or made from a number: so many events, and the plan of the host over which they go. Whether an event may
//! come is exact.
#![tactic(auto)]

mod count_jobs;
mod counts;
mod days;
mod event;
mod events;
mod events_report;
mod laws;
mod lines;
mod made;
mod made_day;
mod made_event;
mod made_plan;
mod report;
mod reports;
mod run_program;
mod single_event;
mod words;

pub use command_rules::Caller;
pub use counts::Counts;
pub use days::{INTERVAL, LIMIT, day};
pub use event::{Event, are_day_events, is_day_event};
pub use events::Events;
pub use events_report::EventReport;
pub use laws::{acknowledged_events_are_whole, made_days_are_reported};
pub use made::{Made, make_events};
pub use made_day::spool_of_day;
pub use report::DayReport;
pub use reports::EventReports;
pub use run_program::{asks_for_day, program};
pub use single_event::one_event;
pub use words::Words;
