//! The bytes that were put, which clauses alone read.
ghost use Rattle.std.specs.Prelude.{◌≡◌, List, ℕ, [], ◌++◌};
ghost use Rattle.std.specs.Borrow.{ftrue};

use std::marker::Model;

// Bytes of one put.
#[derive(Clone, Copy)]
pub struct Put<'a> {
    pub bytes: &'a [u8],
}

/// All bytes so far, in order. It has none itself.
#[derive(Drop)]
pub struct PutLog {
    pub ghost bytes: { List ℕ },
}

impl Model for PutLog {
    ghost also_owns = { λ _. ftrue };
}

impl PutLog {
    /// No bytes.
    pub fn new() -> PutLog
        ensures { result.bytes ≡ [] }
    {
        PutLog {}
    }

    /// These bytes, and then those of one put.
    pub fn and(&self, _put: &Put<'_>) -> PutLog
        ensures { result.bytes ≡ self.now.bytes ++ _put.now.bytes.now }
    {
        PutLog {}
    }
}
