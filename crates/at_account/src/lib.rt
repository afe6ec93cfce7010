//! The program of ataccount: a session that brings `.ACC`, the account of jobs, up to date, and prints totals. Each image has
//! the old account or the new one; what is new of a table is exact, and so are the totals.
//!
//! Its definitions are what a reader of `account_program` believes. In the order in which to read them:
//! 1. `Names` and `Words`: the files of accounts, and what the words request
//! 2. `UpdatedRecords`: the records of a directory, and those with what is new of its table
//! 3. `TotalLines`: the lines that are shown
//! 4. `AccountOutcome`: what each image of each moment has, and how the program ends, by its cause
#![tactic(auto)]

mod account;
mod fault;
mod file;
mod known;
mod laws;
mod ledger;
mod line;
mod lines;
mod names;
mod new_records;
mod new_records_of_jobs;
mod owner_names;
mod program;
mod record;
mod record_line;
mod session;
mod tally;
mod words;

pub use account::{Account, MAX_RECORDS};
pub use fault::AccountFault;
pub use laws::{news_are_one, news_may_come, records_can_be_written};
pub use ledger::{Ledger, RecordState};
pub use line::{AccountLine, KINDS};
pub use names::{account_name, account_temporary_name};
pub use new_records::{KnownJob, add_new_records};
pub use program::account_program;
pub use record::{AccountEvent, AccountRecord, Closing, Owner};
