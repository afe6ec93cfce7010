//! What the program comes to.
use listing_text::Cause;

/// What the program comes to, before its last line is said.
#[derive(Clone, Copy)]
pub(crate) enum MailOutcome {
    /// A session ended so, and its line was said.
    OfSession(Cause),
    /// A cause of its own, of which the line is still to be said.
    Own(Cause),
}
