//! What the program ends with.
ghost use Rattle.std.specs.Prelude.{◌≡◌};
ghost use Rattle.at_stat.specs.StatOutcome.{stopped_status};

use listing_text::Cause;

/// The exit status of the program, and why it was not done, if it was not. Where it was done, the status is 0, or that of
/// the one job that was waited for.
#[derive(Clone, Copy)]
pub struct StatExit {
    pub code: u8,
    pub cause: Option<Cause>,
}

impl StatExit {
    // The status of a cause for which the program was not done.
    pub(crate) fn of(cause: Cause) -> StatExit
        ensures { result ≡ stopped_status cause }
    {
        StatExit {
            code: cause.code(),
            cause: Some(cause),
        }
    }
}
