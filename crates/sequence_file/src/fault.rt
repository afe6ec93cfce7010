//! Why the last number could not be read.
ghost use Rattle.std.specs.Prelude.{◌≡◌};
ghost use Rattle.sequence_file.specs.Faults.{sequence_fault_of, fault_of_sequence};

use host_calls::{Damage, HostFault, StoreFault};
use std::fmt;
use thiserror::Error;

/// Why the last number could not be read.
#[derive(Clone, Copy, Error)]
pub enum SequenceFault {
    #[error("spool fault")]
    Failed,
    #[error("out of memory")]
    Memory,
    #[error("damaged at {}", .0.offset)]
    Damaged(Damage),
}

impl fmt::Debug for SequenceFault {
    fn fmt<W: fmt::Write>(&self, f: &mut fmt::Formatter<W>) -> fmt::Result {
        write!(f, "{self}")
    }
}

impl From<HostFault> for SequenceFault {
    ghost from_gives = { λ fault made. made ≡ sequence_fault_of fault };

    fn from(fault: HostFault) -> Self {
        match fault {
            HostFault::Failed => SequenceFault::Failed,
            HostFault::Memory => SequenceFault::Memory,
        }
    }
}

impl From<SequenceFault> for StoreFault {
    ghost from_gives = { λ fault made. made ≡ fault_of_sequence fault };

    fn from(fault: SequenceFault) -> Self {
        match fault {
            SequenceFault::Failed => StoreFault::FileFault,
            SequenceFault::Memory => StoreFault::Memory,
            SequenceFault::Damaged(damage) => StoreFault::Damaged(damage),
        }
    }
}
