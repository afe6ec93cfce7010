//! How the parts of a session of mail join, each law as the contract of a function.
ghost use Rattle.mail_session.specs.Laws.{DuesAreDue, LeftoversAreCleared, QuestionsMakeNoNote, RecoveriesOpen, SessionsPost, StaleFilesAreOfMail, StoppedSessionsPost};

/// After a recovery and the removal of left-over files of mail, notes that are made, to their end or not, leave at each
/// moment what the directory showed, and the notes with a prefix of the new ones, whose notices were sent.
pub fn sessions_of_mail_join()
    ensures opened { RecoveriesOpen }
    ensures cleared { LeftoversAreCleared }
    ensures posted { SessionsPost }
    ensures stopped { StoppedSessionsPost }
{}

/// What a store says is due of the jobs that wait is due by the table.
pub fn dues_are_due()
    ensures { DuesAreDue }
{}

/// Files of mail that are left over may be removed, and a question to children makes no note.
pub fn stale_files_and_questions()
    ensures stale { StaleFilesAreOfMail }
    ensures questions { QuestionsMakeNoNote }
{}
