//! A history that clauses alone read.
ghost use Rattle.std.specs.Prelude.{◌≡◌, List, [], ◌∷◌, ◌++◌};
ghost use Rattle.std.specs.Borrow.{ftrue};

use std::marker::{Model, PhantomData};

/// The values so far, in order. It has no bytes, so a clause of a type alone ties it to what was done.
#[derive(Drop)]
pub struct Trace<A> {
    of: PhantomData<A>,
    pub ghost items: { List A },
}

impl<A> Model for Trace<A> {
    ghost also_owns = { λ _. ftrue };
}

impl<A> Trace<A> {
    /// No value.
    pub fn new() -> Trace<A>
        ensures { result.items ≡ [] }
    {
        Trace { of: PhantomData }
    }

    /// These values and one more.
    pub fn and(&self, _item: &A) -> Trace<A>
        ensures { result.items ≡ self.now.items ++ _item.now ∷ [] }
    {
        Trace { of: PhantomData }
    }
}
