//! Standard output.
ghost use Rattle.std.specs.Prelude.{◌≡◌, [], false, IsErrOf};
ghost use Rattle.host_calls.specs.Causes.{HasCause};

use host_calls::{Sink, SinkFault};
use std::alloc::Global;

/// The standard output of this process. It takes any bytes.
#[derive(Drop)]
pub struct UnixOut<R: Print + Drop> {
    rt: R,
    pub(crate) sink_faults: u64,
}

impl<R: Print + Drop> UnixOut<R> {
    /// The standard output of this runtime.
    pub fn make(rt: R) -> UnixOut<R>
        ensures { result.sink_faults ≡ 0 }
    {
        UnixOut { rt, sink_faults: 0 }
    }
}

impl<R: Print + Drop> Sink for UnixOut<R> {
    ghost tells = { false };

    ghost content = { λ _. [] };

    ghost outlet = { λ own. record { made_as = []; sink_faults = own.sink_faults } };

    fn put(&mut self, alloc: Global, bytes: &[u8]) -> Result<(), SinkFault>
        ensures cause { HasCause SinkFault.Failed self.old.sink_faults self.new.sink_faults result }
        ensures counts { ¬ (IsErrOf result SinkFault.Failed) → self.new.sink_faults ≡ self.old.sink_faults }
    {
        let _ = alloc;
        if self.rt.write_all(bytes).is_ok() {
            return Ok(());
        }
        self.sink_faults = self.sink_faults.saturating_add(1);
        Err(SinkFault::Failed)
    }
}
