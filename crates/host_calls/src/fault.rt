//! Why a call to the outside did not succeed.
ghost use Rattle.std.specs.Prelude.{◌≡◌};
ghost use Rattle.host_calls.specs.declared.fault.EnterFault.TheVariants as enter;
ghost use Rattle.host_calls.specs.declared.fault.HostFault.TheVariants as host;
ghost use Rattle.host_calls.specs.declared.fault.InputFault.TheVariants as input;
ghost use Rattle.host_calls.specs.declared.fault.SinkFault.TheVariants as sink;
ghost use Rattle.host_calls.specs.declared.fault.StartFault.TheVariants as start;

use std::alloc::AllocError;

/// Why a session could not begin.
#[derive(Clone, Copy, Debug, PartialEq, Eq)]
pub enum EnterFault {
    /// Another program holds the lock.
    Taken,
    Failed,
    Memory,
}

/// Why a call on the spool directory did not succeed.
#[derive(Clone, Copy, Debug, PartialEq, Eq)]
pub enum HostFault {
    Failed,
    Memory,
}

/// Why no child could be started.
#[derive(Clone, Copy, Debug, PartialEq, Eq)]
pub enum StartFault {
    Failed,
    Memory,
}

/// Why an input could not be read.
#[derive(Clone, Copy, Debug, PartialEq, Eq)]
pub enum InputFault {
    Failed,
    Memory,
}

/// Why bytes could not be put.
#[derive(Clone, Copy, Debug, PartialEq, Eq)]
pub enum SinkFault {
    Failed,
    Memory,
}

impl From<AllocError> for EnterFault {
    ghost from_gives = { λ _ fault. fault ≡ enter.Memory };

    fn from(_: AllocError) -> Self {
        EnterFault::Memory
    }
}

impl From<AllocError> for HostFault {
    ghost from_gives = { λ _ fault. fault ≡ host.Memory };

    fn from(_: AllocError) -> Self {
        HostFault::Memory
    }
}

impl From<AllocError> for StartFault {
    ghost from_gives = { λ _ fault. fault ≡ start.Memory };

    fn from(_: AllocError) -> Self {
        StartFault::Memory
    }
}

impl From<AllocError> for InputFault {
    ghost from_gives = { λ _ fault. fault ≡ input.Memory };

    fn from(_: AllocError) -> Self {
        InputFault::Memory
    }
}

impl From<AllocError> for SinkFault {
    ghost from_gives = { λ _ fault. fault ≡ sink.Memory };

    fn from(_: AllocError) -> Self {
        SinkFault::Memory
    }
}
