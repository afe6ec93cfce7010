//! What is kept of the records of a file while it is read.
ghost use Rattle.std.specs.Prelude.{◌∷◌, ◌++◌, [], List, OnOk};
ghost use Rattle.std.specs.Bool.{Decides};

use std::alloc::AllocError;

/// Tells which record may come next.
pub trait Keeper<R: Copy> {
    /// What is kept holds these records, in their order.
    ghost tells: { List R → Self → Type 0 };

    /// After the records this one may come.
    ghost legal: { List R → R → Type 0 };

    /// Whether this record may come next.
    fn allows(&self, next: &R) -> bool
        ensures { (before : List R) → tells before self.now → Decides result (legal before next.now) };

    /// Takes one more record, which may come next.
    fn add(&mut self, next: &R) -> Result<(), AllocError>
        ensures { OnOk result ((before : List R) → tells before self.old → legal before next.now
            → tells (before ++ next.now ∷ []) self.new) };
}
