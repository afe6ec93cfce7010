//! What serving comes to.
ghost use Rattle.std.specs.Prelude.{◌≡◌};

use listing_text::Cause;

/// What serving comes to, before its last line is said.
#[derive(Clone, Copy)]
pub enum ServeOutcome {
    /// A turn ended so, and its line was said.
    OfTurn(Cause),
    /// A cause of its own, of which the line is still to be said.
    Own(Cause),
}
