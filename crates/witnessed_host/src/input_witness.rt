//! Who is notified of each call on inputs.
ghost use Rattle.std.specs.Prelude.{◌≡◌, Bool, IsTrue, IfOk};
ghost use Rattle.host_calls.specs.Inputs.{Contents, IsInputPrefix};
ghost use Rattle.witnessed_host.specs.PassedAnswers.{Passes};

use host_calls::{Bytes, InputFault};

/// Who is notified of each call on inputs with its answer. He passes an answer on, or disputes it: the call has
/// failed then.
pub trait InputWitness {
    /// Whether he knows the content.
    ghost knows: { Bool };

    /// The content, as he knows it. It means something only where he knows it.
    ghost contents: { Self → Contents };

    /// The first bytes of standard input were read: all of them, or `most`.
    fn standard(
        &mut self,
        most: usize,
        answer: Result<Bytes, InputFault>,
    ) -> Result<Bytes, InputFault>
        ensures passes { Passes InputFault.Failed answer result }
        ensures prefix { IsTrue knows → IfOk result (IsInputPrefix (Some (contents self.old).standard) most) }
        ensures contents { contents self.new ≡ contents self.old };

    /// The first bytes of a file were read: all of them, or `most`.
    fn file(
        &mut self,
        path: &str,
        most: usize,
        answer: Result<Bytes, InputFault>,
    ) -> Result<Bytes, InputFault>
        ensures passes { Passes InputFault.Failed answer result }
        ensures prefix { IsTrue knows → IfOk result (IsInputPrefix ((contents self.old).file path.now) most) }
        ensures contents { contents self.new ≡ contents self.old };
}
