//! `.MAIL`, the notes on jobs for mail: their lines, which may come next, names and texts of notices. A note that is
//! allowed can be written and reads back.
#![tactic(auto)]

mod laws;
mod line;
mod names;
mod note;
mod notice;
mod notice_states;

pub use laws::{
    mail_is_none_of_the_stores, note_files_are_texts, notes_can_be_written,
    notice_numbers_are_read, runs_of_notes_join,
};
pub use names::{mail_name, mail_temp_name, notice_name, notice_number};
pub use note::{Note, NotedJob};
pub use notice::{NOTICE_NICE, notice_text};
pub use notice_states::{NoticeState, NoticeStates};
