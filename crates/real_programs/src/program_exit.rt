//! How a program ended.
ghost use Rattle.std.specs.Prelude.{◌≡◌};
ghost use Rattle.real_programs.specs.ProgramRuns.{exit_of, stat_exit_of};

use at_stat::StatExit;
use listing_text::{Cause, Status};

/// The exit status, and the cause. atstat alone has none where it ended with the status of a job, or with 0.
#[derive(Clone, Copy)]
pub struct ProgramExit {
    pub code: u8,
    pub cause: Option<Cause>,
}

impl ProgramExit {
    /// The exit of this status.
    pub fn of(status: Status) -> ProgramExit
        ensures { result ≡ exit_of status }
    {
        ProgramExit {
            code: status.code,
            cause: Some(status.cause),
        }
    }

    /// The exit of atstat.
    pub fn of_stat(exit: StatExit) -> ProgramExit
        ensures { result ≡ stat_exit_of exit }
    {
        ProgramExit {
            code: exit.code,
            cause: exit.cause,
        }
    }
}
