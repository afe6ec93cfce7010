//! The end of a call on the files.
ghost use Rattle.std.specs.Prelude.{◌≡◌, true, IsErrOf, OnErr, OnOk};
ghost use Rattle.host_calls.specs.Causes.{HasCause};

use crate::locked::LockedDirectory;
use host_calls::HostFault;
use witnessed_host::FaultCounts;

/// After a call on the files: where it failed, that is kept account of and counted.
pub fn finish<T>(
    directory: &mut LockedDirectory,
    counts: &mut FaultCounts,
    answer: Result<T, HostFault>,
) -> Result<T, HostFault>
    ensures same { result ≡ answer }
    ensures cause { HasCause HostFault.Failed counts.old.files counts.new.files result }
    ensures starts { counts.new.starts ≡ counts.old.starts }
    ensures taken { counts.new.taken ≡ counts.old.taken }
    ensures quiet { ¬ (IsErrOf result HostFault.Failed) → counts.new.files ≡ counts.old.files }
    ensures listing { directory.new.listing ≡ directory.old.listing }
    ensures ok { OnOk answer (directory.new.changes ≡ directory.old.changes) }
    ensures failed { OnErr answer (directory.new.changes ≡ record directory.old.changes { has_failed = true }) }
{
    if answer.is_err() {
        directory.fail();
    }
    counts.file_call(answer)
}
