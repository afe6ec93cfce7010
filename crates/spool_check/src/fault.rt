//! Why a directory could not be salvaged.
ghost use Rattle.std.specs.Prelude.{◌≡◌};
ghost use Rattle.spool_check.specs.Faults.{of_source, of_target};

use host_calls::HostFault;

/// Why a directory could not be salvaged.
#[derive(Clone, Copy, Debug, PartialEq, Eq)]
pub enum SalvageFault {
    /// A call on the directory that is salvaged failed.
    FromFailed,
    /// A call on the new directory failed.
    ToFailed,
    /// The new directory has files of a spool.
    NotEmpty,
    /// There was no memory for it.
    Memory,
}

// A fault of the directory that is salvaged.
pub(crate) fn of_source(fault: HostFault) -> SalvageFault
    ensures { result ≡ of_source fault }
{
    match fault {
        HostFault::Failed => SalvageFault::FromFailed,
        HostFault::Memory => SalvageFault::Memory,
    }
}

// A fault of the new directory.
pub(crate) fn of_target(fault: HostFault) -> SalvageFault
    ensures { result ≡ of_target fault }
{
    match fault {
        HostFault::Failed => SalvageFault::ToFailed,
        HostFault::Memory => SalvageFault::Memory,
    }
}
