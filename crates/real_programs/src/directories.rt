//! Directories on a disk, each next to a witness.
ghost use Rattle.std.specs.Prelude.{◌≡◌, IfOk};
ghost use Rattle.host_calls.specs.Session.{IsOutside};
ghost use Rattle.unix_host.specs.declared.absent.Absent.TheVariants.{Fails, Makes};
ghost use Rattle.unix_host.specs.declared.naming.Naming.TheVariants.{Current};

use host_calls::{Host, Text};
use job_script::MAX_HEADER;
use std::alloc::AllocError;
use unix_host::{UnixHost, Waits};
use witnessed_host::{Witness, Witnessed};

/// A directory on a disk, next to a witness.
pub type RealDirectory<W> = Witnessed<UnixHost<HostRuntime>, W>;

/// The spool directory of this path, next to this witness. The first session makes it where it is absent, and makes it
/// the current directory of the process.
pub fn spool_directory<W: Witness + Drop>(
    rt: &HostRuntime,
    spool: Text,
    waits: Waits,
    witness: W,
) -> Result<RealDirectory<W>, AllocError>
    ensures outside { IfOk result (λ directory. IsOutside (⟦<RealDirectory<W> as Host>⟧.session directory)) }
    ensures witness { IfOk result (λ directory. directory.witness ≡ witness) }
    ensures spool { IfOk result (λ directory. directory.host.spool ≡ spool) }
    ensures absent { IfOk result (λ directory. directory.host.absent ≡ Makes) }
    ensures naming { IfOk result (λ directory. directory.host.naming ≡ Current) }
    ensures waits { IfOk result (λ directory. directory.host.waits ≡ waits) }
{
    let host = UnixHost::make(rt.clone()?, rt.alloc(), spool)?
        .keeping(MAX_HEADER)
        .moving()
        .waiting(waits);
    Ok(Witnessed::new(host, witness))
}

/// The directory of this path that exists, next to this witness. Where it is absent a session fails, and makes none.
pub fn existing_directory<W: Witness + Drop>(
    rt: &HostRuntime,
    spool: Text,
    waits: Waits,
    witness: W,
) -> Result<RealDirectory<W>, AllocError>
    ensures outside { IfOk result (λ directory. IsOutside (⟦<RealDirectory<W> as Host>⟧.session directory)) }
    ensures witness { IfOk result (λ directory. directory.witness ≡ witness) }
    ensures spool { IfOk result (λ directory. directory.host.spool ≡ spool) }
    ensures absent { IfOk result (λ directory. directory.host.absent ≡ Fails) }
    ensures waits { IfOk result (λ directory. directory.host.waits ≡ waits) }
{
    let host = UnixHost::existing(rt.clone()?, rt.alloc(), spool)?
        .keeping(MAX_HEADER)
        .waiting(waits);
    Ok(Witnessed::new(host, witness))
}

/// The directory of this path into which is written what another directory still shows, next to this witness. A session
/// makes it where it is absent.
pub fn new_directory<W: Witness + Drop>(
    rt: &HostRuntime,
    directory: Text,
    waits: Waits,
    witness: W,
) -> Result<RealDirectory<W>, AllocError>
    ensures outside { IfOk result (λ made. IsOutside (⟦<RealDirectory<W> as Host>⟧.session made)) }
    ensures witness { IfOk result (λ made. made.witness ≡ witness) }
    ensures spool { IfOk result (λ made. made.host.spool ≡ directory) }
    ensures absent { IfOk result (λ made. made.host.absent ≡ Makes) }
    ensures waits { IfOk result (λ made. made.host.waits ≡ waits) }
{
    let host = UnixHost::make(rt.clone()?, rt.alloc(), directory)?.waiting(waits);
    Ok(Witnessed::new(host, witness))
}
