//! The witnesses of a system.
use witnessed_host::Unchecked;

/// The witnesses of the directory, of the target of a salvage and of the input.
#[derive(Drop)]
pub struct Witnesses<W, V> {
    pub directory: W,
    pub target: W,
    pub input: V,
}

/// Witnesses that know nothing, and dispute nothing. The shipped programs have these.
pub const UNCHECKED: Witnesses<Unchecked, Unchecked> = Witnesses {
    directory: Unchecked,
    target: Unchecked,
    input: Unchecked,
};
