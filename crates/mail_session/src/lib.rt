//! A session of mail: notes new jobs; places, records and sends the notices that are due; removes old ones. A notice is
//! recorded before it is sent, and sent at most once.
#![tactic(auto)]

mod ask;
mod due;
mod due_notices;
mod laws;
mod line;
mod mailer;
mod new_jobs;
mod note_lines;
mod notice_start;
mod places;
mod plan;
mod post;
mod read;
mod report;
mod send;
mod stale;
mod work;

pub use ask::ask_kids;
pub use due::NoticeDue;
pub use due_notices::dues_of;
pub use laws::{dues_are_due, sessions_of_mail_join, stale_files_and_questions};
pub use mailer::Post;
pub use new_jobs::new_jobs_of;
pub use note_lines::{add_note_lines, note_news};
pub use post::post_all;
pub use read::{ReadNotes, read_notes};
pub use report::PostReport;
pub use stale::stale_names;
