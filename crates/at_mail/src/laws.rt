//! What holds of all sessions of mail, as the contract of a function.
ghost use Rattle.at_mail.specs.Once.{NoticesAreHandedOnce, NotingsAreEvents, ProgramsAreEvents, SessionsAreEvents};

/// Over any list of sessions, other events and crashes no notice is sent twice, where each image of the directory
/// had a whole file of notes.
pub fn notices_are_handed_once()
    ensures { NoticesAreHandedOnce }
{}

/// Each session of a post is such an event, and so are the sessions of the program, over a host that exposes its files
/// and is alone.
pub fn sessions_of_mail_are_events()
    ensures sessions { SessionsAreEvents }
    ensures programs { ProgramsAreEvents }
    ensures notings { NotingsAreEvents }
{}
