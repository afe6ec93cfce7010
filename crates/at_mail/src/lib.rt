//! The program of atpost: sessions of mail with rests, their lines, its exit; and the trim of its notes. In any list of
//! sessions, other events and crashes no notice is sent twice, and after a trim a session does what it would have done
//! without it.
//!
//! It also exports the notes, a notice and a session of mail, from the crates below.
//!
//! Its definitions are what a reader of `post_program` believes. In the order in which to read them:
//! 1. `Words`: what the words request
//! 2. `Outcomes`: what the program comes to by a session
//! 3. `SessionsWithRests`: the sessions, one after another, with a rest between two
//! 4. `Program`: how the program ends
//! 5. `Once`: over all sessions, other events and crashes no notice is sent twice
//!
//! And those of a trim:
//! 1. `TrimmedNotes`: which notes stay
//! 2. `TrimOutcome`: what each image of each moment has, and what a trim leaves, by its end
//! 3. `Laws`: a session does after a trim what it would have done without it
//! 4. `Events`: no notice is sent twice
//! 5. `TrimWords` and `TrimProgram`: what the words request, and how the program ends
#![tactic(auto)]

mod laws;
mod lines;
mod noting;
mod outcome;
mod program;
mod request;
mod session_loop;
mod trim_kept;
mod trim_laws;
mod trim_read;
mod trim_session;
mod trim_tool;
mod trim_words;
mod trim_write;
mod words;

pub use laws::{notices_are_handed_once, sessions_of_mail_are_events};
pub use mail_notes::{
    NOTICE_NICE, Note, NotedJob, NoticeState, NoticeStates, mail_name, mail_temp_name, notice_name,
    notice_text,
};
pub use mail_session::{Post, PostReport};
pub use noting::note_new_jobs;
pub use program::post_program;
pub use trim_laws::{
    notices_are_handed_once_with_trims, steps_revive_no_job, trims_change_no_session,
};
pub use trim_session::trim;
pub use trim_tool::trim_program;
