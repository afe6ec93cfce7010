//! Where output goes.
ghost use Rattle.std.specs.Prelude.{◌≡◌, Bool, List, ℕ, IsTrue};
ghost use Rattle.host_calls.specs.Causes.{HasCause};
ghost use Rattle.host_calls.specs.Sink.{Outlet, Puts};

use crate::SinkFault;
use std::alloc::Global;

/// Standard output, standard error, or what is for them.
pub trait Sink {
    /// Whether it exposes its content.
    ghost tells: { Bool };

    /// The bytes that were put. They mean something only where they are recorded.
    ghost content: { Self → List ℕ };

    /// What every sink reports.
    ghost outlet: { Self → Outlet };

    /// Puts the bytes after what is there.
    fn put(&mut self, alloc: Global, bytes: &[u8]) -> Result<(), SinkFault>
        ensures put { IsTrue tells → Puts bytes.now (content self.old) (content self.new) result }
        ensures made_as { (outlet self.new).made_as ≡ (outlet self.old).made_as }
        ensures cause { HasCause SinkFault.Failed (outlet self.old).sink_faults (outlet self.new).sink_faults result };
}
