//! Why a command stopped before it was done.
ghost use Rattle.std.specs.Prelude.{◌≡◌};
ghost use Rattle.listing_text.specs.declared.cause.Cause.TheVariants as cause;
ghost use Rattle.tool_output.specs.Causes.{cause_of, cause_of_entry, cause_of_host, cause_of_input, cause_of_script, cause_of_sink, error_of};

use host_calls::{EnterFault, HostFault, InputFault, SinkFault, StoreFault};
use job_script::ScriptFault;
use listing_text::{Cause, Refusal};
use std::alloc::AllocError;

/// A command was stopped before it was done, and why.
#[derive(Clone, Copy)]
pub struct CommandError {
    pub cause: Cause,
}

impl CommandError {
    /// A command that was refused.
    pub fn refused(refusal: Refusal) -> CommandError
        ensures { result ≡ error_of (cause.Refused refusal) }
    {
        CommandError {
            cause: Cause::Refused(refusal),
        }
    }
}

impl From<StoreFault> for CommandError {
    ghost from_gives = { λ fault made. made ≡ error_of (cause_of fault) };

    fn from(fault: StoreFault) -> Self {
        let cause = match fault {
            StoreFault::FileFault => Cause::FileFault,
            StoreFault::Damaged(damage) => Cause::Damaged(damage),
            StoreFault::QueueFull => Cause::Refused(Refusal::QueueFull),
            StoreFault::NumbersUsedUp => Cause::Refused(Refusal::NumbersUsedUp),
            StoreFault::Memory => Cause::Memory,
        };
        CommandError { cause }
    }
}

impl From<HostFault> for CommandError {
    ghost from_gives = { λ fault made. made ≡ error_of (cause_of_host fault) };

    fn from(fault: HostFault) -> Self {
        let cause = match fault {
            HostFault::Failed => Cause::FileFault,
            HostFault::Memory => Cause::Memory,
        };
        CommandError { cause }
    }
}

impl From<EnterFault> for CommandError {
    ghost from_gives = { λ fault made. made ≡ error_of (cause_of_entry fault) };

    fn from(fault: EnterFault) -> Self {
        let cause = match fault {
            EnterFault::Taken => Cause::Busy,
            EnterFault::Failed => Cause::FileFault,
            EnterFault::Memory => Cause::Memory,
        };
        CommandError { cause }
    }
}

impl From<InputFault> for CommandError {
    ghost from_gives = { λ fault made. made ≡ error_of (cause_of_input fault) };

    fn from(fault: InputFault) -> Self {
        let cause = match fault {
            InputFault::Failed => Cause::InputFault,
            InputFault::Memory => Cause::Memory,
        };
        CommandError { cause }
    }
}

impl From<SinkFault> for CommandError {
    ghost from_gives = { λ fault made. made ≡ error_of (cause_of_sink fault) };

    fn from(fault: SinkFault) -> Self {
        let cause = match fault {
            SinkFault::Failed => Cause::OutputFault,
            SinkFault::Memory => Cause::Memory,
        };
        CommandError { cause }
    }
}

impl From<ScriptFault> for CommandError {
    ghost from_gives = { λ fault made. made ≡ error_of (cause_of_script fault) };

    fn from(fault: ScriptFault) -> Self {
        let cause = match fault {
            ScriptFault::BadUser => Cause::Refused(Refusal::BadUser),
            ScriptFault::BadDirectory => Cause::Refused(Refusal::BadDirectory),
            ScriptFault::EnvironmentTooLarge => Cause::Refused(Refusal::EnvironmentTooLarge),
            ScriptFault::TooLong => Cause::Refused(Refusal::TooLong),
            ScriptFault::Memory => Cause::Memory,
        };
        CommandError { cause }
    }
}

impl From<AllocError> for CommandError {
    ghost from_gives = { λ _ made. made ≡ error_of cause.Memory };

    fn from(_: AllocError) -> Self {
        CommandError {
            cause: Cause::Memory,
        }
    }
}
