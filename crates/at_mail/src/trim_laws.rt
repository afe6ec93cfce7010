//! What holds of all trims, as the contracts of functions.
ghost use Rattle.at_mail.specs.Events.{CrashesOfTrimsAreEvents, NoticesAreHandedOnceWithTrims, TrimsAreEvents};
ghost use Rattle.at_mail.specs.Laws.{StepsReviveNoJob, TrimsChangeNoSession};

/// A session after a trim has the steps that it would have without it: no notice becomes due again, and none that waits is
/// lost.
pub fn trims_change_no_session()
    ensures { TrimsChangeNoSession }
{}

/// Over any list of sessions, trims, other events and crashes no notice is sent twice, where each image of the
/// directory had a whole file of notes, and no job lives where a session begins that was over when a trim had recovered.
/// Each trim is such an event, and so is one in which there was a crash.
pub fn notices_are_handed_once_with_trims()
    ensures once { NoticesAreHandedOnceWithTrims }
    ensures events { TrimsAreEvents }
    ensures crashes { CrashesOfTrimsAreEvents }
{}

/// No job lives again by the steps of commands and turns, each of which accepts a job only under a number drawn just
/// before.
pub fn steps_revive_no_job()
    ensures { StepsReviveNoJob }
{}
