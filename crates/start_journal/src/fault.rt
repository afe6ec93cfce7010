//! Why the journal could not be read.
ghost use Rattle.std.specs.Prelude.{◌≡◌};
ghost use Rattle.start_journal.specs.JournalFaults.{journal_fault_of, fault_of_journal};
ghost use Rattle.start_journal.specs.declared.fault.JournalFault.TheVariants as variant;

use host_calls::{Damage, HostFault, StoreFault};
use std::alloc::AllocError;
use std::fmt;
use thiserror::Error;

/// Why the journal could not be read.
#[derive(Clone, Copy, Error)]
pub enum JournalFault {
    #[error("spool fault")]
    Failed,
    #[error("out of memory")]
    Memory,
    #[error("damaged at {}", .0.offset)]
    Damaged(Damage),
}

impl fmt::Debug for JournalFault {
    fn fmt<W: fmt::Write>(&self, f: &mut fmt::Formatter<W>) -> fmt::Result {
        write!(f, "{self}")
    }
}

impl From<HostFault> for JournalFault {
    ghost from_gives = { λ fault made. made ≡ journal_fault_of fault };

    fn from(fault: HostFault) -> Self {
        match fault {
            HostFault::Failed => JournalFault::Failed,
            HostFault::Memory => JournalFault::Memory,
        }
    }
}

impl From<AllocError> for JournalFault {
    ghost from_gives = { λ _ made. made ≡ variant.Memory };

    fn from(_: AllocError) -> Self {
        JournalFault::Memory
    }
}

impl From<JournalFault> for StoreFault {
    ghost from_gives = { λ fault made. made ≡ fault_of_journal fault };

    fn from(fault: JournalFault) -> Self {
        match fault {
            JournalFault::Failed => StoreFault::FileFault,
            JournalFault::Memory => StoreFault::Memory,
            JournalFault::Damaged(damage) => StoreFault::Damaged(damage),
        }
    }
}
