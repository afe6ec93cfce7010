//! Why a program could not begin.
ghost use Rattle.std.specs.Prelude.{◌≡◌};
ghost use Rattle.listing_text.specs.Cause.{cause_text, code_of};
ghost use Rattle.process_input.specs.StartupError.{cause_of_startup};

use std::alloc::AllocError;

/// Why a program could not begin.
#[derive(Clone, Copy)]
pub enum StartupError {
    Memory,
    /// A word of the command line is no text.
    Words,
}

impl StartupError {
    /// What is said of it.
    pub fn text(&self) -> &'static str
        ensures { result.now ≡ cause_text (cause_of_startup self.now) }
    {
        match self {
            StartupError::Memory => "out of memory",
            StartupError::Words => "usage",
        }
    }

    /// The exit status.
    pub fn code(&self) -> u8
        ensures { result ≡ code_of (cause_of_startup self.now) }
    {
        match self {
            StartupError::Memory => 6,
            StartupError::Words => 1,
        }
    }
}

impl From<AllocError> for StartupError {
    fn from(_error: AllocError) -> StartupError {
        StartupError::Memory
    }
}

/// Says on standard error why the tool of this name could not begin, where that can be written. Answers the exit
/// status.
pub fn say_startup_error(rt: &HostRuntime, tool: &str, why: StartupError) -> u8
    ensures { result ≡ code_of (cause_of_startup why) }
{
    let _ = eprintln!(rt; "{tool}: {}", why.text());
    why.code()
}
