//! The program of atcron: sessions with rests, the words, the lines and the exit; and its list of the next minutes. Each
//! session is at the second of the clock, on the file as it is then; the list leaves no due minute out.
//!
//! Its definitions are what a reader of `cron_program` believes. In the order in which to read them:
//! 1. `Words`: what the words request
//! 2. `Outside`: what is worked with, at a moment
//! 3. `Items`: a session, the rest after it, and what is said of it
//! 4. `Sessions`: one more session, or how the program ends there
//! 5. `CronRuns`: all sessions, and the end; `Examples` has rests between sessions
//!
//! And those of `next_program`, which reads and changes no spool:
//! 1. `Schedule`: the search for the next minutes at which an entry is due
//! 2. `ListingWords`: what the words request
//! 3. `Listing`: the lines of an entry and of all of them
//! 4. `ListingRun`: what is read and put, and how the program ends
//!
//! The file of a crontab is read once; the entries are those of its text, or there is a reason.
#![tactic(auto)]

mod dates;
mod first;
mod input_read;
mod item;
mod laws;
mod lines;
mod listing_lines;
mod listing_program;
mod listing_read;
mod listing_words;
mod next;
mod program;
mod session;
mod session_loop;
mod words;

pub use cron_session::{CRON_QUEUE, CronEnd, CronReport, cron_session};
pub use input_read::read_entries;
pub use laws::small_rests;
pub use listing_program::next_program;
pub use next::{SEARCHED_MINUTES, next_due};
pub use program::cron_program;
