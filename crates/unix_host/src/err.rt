//! Standard error.
ghost use Rattle.std.specs.Prelude.{◌≡◌, [], false, IsErrOf};
ghost use Rattle.host_calls.specs.Causes.{HasCause};

use host_calls::{Sink, SinkFault};
use std::alloc::Global;

/// The standard error of this process. It takes text alone: bytes that are none are not put, and that is a
/// fault.
#[derive(Drop)]
pub struct UnixErr<R: Eprint + Drop> {
    rt: R,
    pub(crate) sink_faults: u64,
}

impl<R: Eprint + Drop> UnixErr<R> {
    /// The standard error of this runtime.
    pub fn make(rt: R) -> UnixErr<R>
        ensures { result.sink_faults ≡ 0 }
    {
        UnixErr { rt, sink_faults: 0 }
    }
}

impl<R: Eprint + Drop> Sink for UnixErr<R> {
    ghost tells = { false };

    ghost content = { λ _. [] };

    ghost outlet = { λ own. record { made_as = []; sink_faults = own.sink_faults } };

    fn put(&mut self, alloc: Global, bytes: &[u8]) -> Result<(), SinkFault>
        ensures cause { HasCause SinkFault.Failed self.old.sink_faults self.new.sink_faults result }
        ensures counts { ¬ (IsErrOf result SinkFault.Failed) → self.new.sink_faults ≡ self.old.sink_faults }
    {
        let _ = alloc;
        if let Ok(text) = std::str::from_utf8(bytes) {
            if self.rt.eprint(text).is_ok() {
                return Ok(());
            }
        }
        self.sink_faults = self.sink_faults.saturating_add(1);
        Err(SinkFault::Failed)
    }
}
