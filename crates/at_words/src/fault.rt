//! Why words request nothing.
ghost use Rattle.std.specs.Prelude.{◌≡◌};
ghost use Rattle.at_words.specs.declared.fault.WordsFault.TheVariants as fault;

use std::alloc::AllocError;

/// Why words request nothing.
#[derive(Clone, Copy, Debug, PartialEq, Eq)]
pub enum WordsFault {
    /// The tool does not take these words.
    Usage,
    /// The value of `-q` names no queue.
    BadQueue,
    Memory,
}

impl From<AllocError> for WordsFault {
    ghost from_gives = { λ _ made. made ≡ fault.Memory };

    fn from(_: AllocError) -> Self {
        WordsFault::Memory
    }
}
