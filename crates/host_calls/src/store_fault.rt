//! Why a call of the store did not succeed.
ghost use Rattle.std.specs.Prelude.{◌≡◌};
ghost use Rattle.host_calls.specs.StoreFaults.{store_fault_of};
ghost use Rattle.host_calls.specs.declared.store_fault.StoreFault.TheVariants as variant;

use crate::{Damage, HostFault};
use std::alloc::AllocError;
use std::fmt;
use thiserror::Error;

/// Why a call of the store did not succeed.
#[derive(Clone, Copy, Error)]
pub enum StoreFault {
    /// A call on the spool directory failed.
    #[error("spool fault")]
    FileFault,
    /// The directory shows a damage.
    #[error("damaged at {}", .0.offset)]
    Damaged(Damage),
    /// There are as many live jobs as there may be.
    #[error("queue full")]
    QueueFull,
    /// The greatest number was drawn.
    #[error("job numbers used up")]
    NumbersUsedUp,
    #[error("out of memory")]
    Memory,
}

impl fmt::Debug for StoreFault {
    fn fmt<W: fmt::Write>(&self, f: &mut fmt::Formatter<W>) -> fmt::Result {
        write!(f, "{self}")
    }
}

impl From<HostFault> for StoreFault {
    ghost from_gives = { λ fault made. made ≡ store_fault_of fault };

    fn from(fault: HostFault) -> Self {
        match fault {
            HostFault::Failed => StoreFault::FileFault,
            HostFault::Memory => StoreFault::Memory,
        }
    }
}

impl From<AllocError> for StoreFault {
    ghost from_gives = { λ _ made. made ≡ variant.Memory };

    fn from(_: AllocError) -> Self {
        StoreFault::Memory
    }
}

impl From<Damage> for StoreFault {
    ghost from_gives = { λ damage made. made ≡ variant.Damaged damage };

    fn from(damage: Damage) -> Self {
        StoreFault::Damaged(damage)
    }
}
