//! Standard input, and files by their paths.
ghost use Rattle.std.specs.Prelude.{◌≡◌, ◌≤◌, Bool, IsTrue, IfOk, length};
ghost use Rattle.host_calls.specs.Causes.{HasCause};
ghost use Rattle.host_calls.specs.Inputs.{AreReadOnce, Contents, Sources, IsInputPrefix};

use crate::{Bytes, InputFault};
use std::alloc::Global;

/// Where commands come from.
pub trait Inputs {
    /// Whether they expose their content.
    ghost tells: { Bool };

    /// The content. It means something only where it is exposed.
    ghost contents: { Self → Contents };

    /// What all inputs report.
    ghost sources: { Self → Sources };

    /// The first bytes of standard input: all of them, or `most`.
    fn standard(&mut self, alloc: Global, most: usize) -> Result<Bytes, InputFault>
        ensures prefix { IsTrue tells → IfOk result (IsInputPrefix (Some (contents self.old).standard) most) }
        ensures few { IfOk result (λ bytes. length bytes ≤ most) }
        ensures contents { contents self.new ≡ contents self.old }
        ensures once { AreReadOnce (sources self.old) (sources self.new) }
        ensures cause { HasCause InputFault.Failed
            (sources self.old).input_faults (sources self.new).input_faults result };

    /// The first bytes of a file: all of them, or `most`.
    fn file(&mut self, alloc: Global, path: &str, most: usize) -> Result<Bytes, InputFault>
        ensures prefix { IsTrue tells → IfOk result (IsInputPrefix ((contents self.old).file path.now) most) }
        ensures few { IfOk result (λ bytes. length bytes ≤ most) }
        ensures contents { contents self.new ≡ contents self.old }
        ensures once { AreReadOnce (sources self.old) (sources self.new) }
        ensures cause { HasCause InputFault.Failed
            (sources self.old).input_faults (sources self.new).input_faults result };
}
