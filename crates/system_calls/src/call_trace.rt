//! The calls so far, which clauses alone read.
ghost use Rattle.std.specs.Prelude.{◌≡◌, List, [], ◌∷◌, ◌++◌};
ghost use Rattle.std.specs.Borrow.{ftrue};
ghost use Rattle.system_calls.specs.SystemCall.{SystemCall};
ghost use Rattle.system_calls.specs.Calls.{recorded_call};

use crate::call::CallRecord;
use std::marker::Model;

/// The calls so far, in order. It has no bytes.
#[derive(Drop)]
pub struct CallTrace {
    pub ghost calls: { List SystemCall },
}

impl Model for CallTrace {
    ghost also_owns = { λ _. ftrue };
}

impl CallTrace {
    /// No call.
    pub fn new() -> CallTrace
        ensures { result.calls ≡ [] }
    {
        CallTrace {}
    }

    /// These calls and one more.
    pub fn and(&self, _call: &CallRecord<'_>) -> CallTrace
        ensures { result.calls ≡ self.now.calls ++ recorded_call _call.now ∷ [] }
    {
        CallTrace {}
    }
}
