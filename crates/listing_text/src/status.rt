//! What a tool ends with.
use crate::Cause;

/// The exit status of a tool, and its cause.
#[derive(Clone, Copy)]
pub struct Status {
    pub code: u8,
    pub cause: Cause,
}

impl Status {
    ghost use Rattle.std.specs.Prelude.{◌≡◌};
    ghost use Rattle.listing_text.specs.Cause.{status_of};

    /// The status of this cause.
    pub fn of(cause: Cause) -> Status
        ensures { result ≡ status_of cause }
    {
        Status {
            code: cause.code(),
            cause,
        }
    }
}
