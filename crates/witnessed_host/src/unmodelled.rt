//! What exposes nothing of what it holds.
ghost use Rattle.std.specs.Prelude.{◌≡◌, false};

use host_calls::{Host, Inputs};

/// A host that exposes nothing of its files.
pub trait Unmodelled: Host {
    /// It exposes nothing.
    ghost unmodelled: { Self.Host.tells ≡ false };
}

/// Inputs that expose nothing of their content.
pub trait UnmodelledInputs: Inputs {
    /// They expose nothing.
    ghost unmodelled: { Self.Inputs.tells ≡ false };
}
