//! Simulated runs with mail and crontabs too. The headline holds for the scripts of jobs, and no notice or minute comes
//! twice.
//!
//! Its definitions are what a reader of `later_day` believes. In the order in which to read them:
//! 1. `LaterMachines`: a machine at one moment
//! 2. `LaterEffects`: what one event does to a host on which notices are sent too
//! 3. `EffectLaws`: the headline of what of it is of jobs (`LaterEventsHandOnce`), that a session of mail goes on
//!    next to it, and that commands and turns leave alone what is next to the store (`EffectsLeaveTheRest`)
//! 4. `SessionsPass`: what a session of mail and one of a crontab do, by their ends
//! 5. `EventsLaws`: that they do so (`MailSessionsPass`, `CronSessionsPass`), and that whatever leaves alone all files but the
//!    store's leaves the notes and the mark alone (`BesideTheStorePass`)
//! 6. `LaterEventEffects`: which events may come, and what happens with each (`LaterHappens`)
//! 7. `LaterOutcomes`: their outcomes, one after another (`AreLaterDoneOn`)
//! 8. `LaterPromise`: the promise of outcomes (`KeepsLaterPromise`)
//! 9. `LaterDays`: a day (`IsLaterDay`), and one for which memory ran out (`IsLaterDayCut`)
//! 10. `Laws`: that outcomes keep the promise, and what the events of a day are among them (`DayOutcomesPass`)
#![tactic(auto)]

mod day_event;
mod days;
mod entry;
mod events_laws;
mod later;
mod laws;
mod may_come;
mod one_event;
mod report;

pub use at_day::{Event, EventReport};
pub use civil_minute::Zone;
pub use cron_session::{CronEnd, CronReport};
pub use cron_text::Entries;
pub use days::later_day;
pub use entry::LaterEntry;
pub use events_laws::{
    beside_the_store_pass, cron_sessions_pass, effects_leave_the_rest, jobs_stay_over,
    later_events_hand_once, mail_sessions_pass,
};
pub use job_script::Context;
pub use later::Later;
pub use laws::{day_outcomes_pass, later_outcomes_keep_their_promise};
pub use mail_session::PostReport;
pub use may_come::{are_later_events, is_later_event};
pub use report::LaterReport;
