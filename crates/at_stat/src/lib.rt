//! The program of atstat: lines of jobs, and waits for their ends. The lines are those of the table that the last look
//! found; a look changes nothing.
//!
//! Without JOB the lines are those of the live jobs that the caller sees, in the order of `atq`, and then those of the jobs
//! that are done, by number; with `-q` those of the live jobs of that queue alone, running or waiting. `-w` looks at the
//! spool once a second until no awaited job lives: each JOB, or, without JOB, each live job of the first look that would be
//! listed. Then the lines are put, over the last look, just as without `-w`.
//!
//! Its definitions are what a reader of `stat_program` believes. In the order in which to read them:
//! 1. `Stages`: how far the job of a number has come
//! 2. `Lines` and `Objects`: its line, as text and as a JSON object
//! 3. `Reports`: which numbers are requested, and the text of their lines; `Laws`: what follows of them
//! 4. `Words`: what the words request
//! 5. `Checks`: which jobs are refused, and the exit status of a job
//! 6. `OneLook`: one session, which looks at the spool and changes nothing of what it shows
//! 7. `WaitSessions`: the sessions one after another, and how they end
//! 8. `StatOutcome`: what is put and said, and the status, by its cause
#![tactic(auto)]

mod awaited;
mod checks;
mod form;
mod job_line;
mod job_object;
mod laws;
mod lines;
mod numbers;
mod program;
mod report;
mod request;
mod search;
mod session;
mod session_loop;
mod stage;
mod states_words;
mod status;
mod words;

pub use form::Form;
pub use laws::{scripts_decide_no_stage, stages_exclude_each_other};
pub use numbers::{asked_numbers, is_in_queue};
pub use program::stat_program;
pub use report::report_of;
pub use stage::{JobStage, stage_of};
pub use status::StatExit;
