//! A session of a crontab: sets the mark `.CRON`, then submits what is due. No minute is submitted twice, whatever crashes.
//!
//! Its definitions are what a reader of `cron_session` believes. In the order in which to read them:
//! 1. `MarkNames` and `Mark`: the text of a mark, the minute whose entries were submitted last, and its damage, which are exact
//! 2. `Steps`: what is due at the minute of a session, the steps and numbers of its jobs, and when it has none
//! 3. `SessionOutcome`: what each image of each moment has of the mark and the table, and what is left, by the end (`CronsTo`)
//! 4. `Minutes`: over any list of sessions, and of crashes inside them, no minute comes twice (`NoMinuteComesTwice`)
#![tactic(auto)]

mod due;
mod mark;
mod mark_names;
mod mark_text;
mod minutes;
mod read_mark;
mod report;
mod room;
mod session;
mod submit;
mod work;

pub use mark_names::{mark_name, mark_temporary_name};
pub use mark_text::{cron_mark_text, minute_in};
pub use minutes::no_minute_comes_twice;
pub use read_mark::read_cron_mark;
pub use report::{CronEnd, CronReport};
pub use session::{CRON_QUEUE, cron_session};
