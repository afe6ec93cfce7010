//! One turn of the daemon (interrupted jobs, ended children, starts, forgotten numbers), and what the daemon keeps
//! between turns. All steps of a turn are made, or a prefix; each start is durable before its script starts.
#![tactic(auto)]

mod ask_all;
mod daemon;
mod decide;
mod forget;
mod job_start;
mod kid;
mod kids;
mod laws;
mod make_all;
mod mode;
mod plan;
mod report;
mod start;
mod step;
mod turn_input;
mod turning;
mod twice;

pub use daemon::Daemon;
pub use host_calls::{TurnEnd, end_of_session};
pub use kid::Kid;
pub use laws::turns_end_well;
pub use mode::Mode;
pub use report::TurnReport;
pub use spool_model::TurnStep;
pub use step::TurnSteps;
pub use turn_input::TurnInput;
pub(crate) use turning::Turning;
pub use twice::turn_twice;
