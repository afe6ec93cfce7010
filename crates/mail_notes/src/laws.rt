//! What holds of all notes, each law as the contract of a function.
ghost use Rattle.mail_notes.specs.Laws.{MailIsNoneOfTheStores, NoNotesAreMade, NoteFilesAreTexts, NoticeNumbersAreRead, NotesAreMadeAfter, NotesAreStoppedAfter, NotesCanBeWritten};

/// A note whose number fits eight digits, whose file is that of its job and whose user's name is one can be written.
pub fn notes_can_be_written()
    ensures { NotesCanBeWritten }
{}

/// A file of notes has their text, line by line.
pub fn note_files_are_texts()
    ensures { NoteFilesAreTexts }
{}

/// Notes that were made one part after another are made, and where a later part was stopped, all are.
pub fn runs_of_notes_join()
    ensures none { NoNotesAreMade }
    ensures made { NotesAreMadeAfter }
    ensures stopped { NotesAreStoppedAfter }
{}

/// No file of mail is one of the store's.
pub fn mail_is_none_of_the_stores()
    ensures { MailIsNoneOfTheStores }
{}

/// The number that is read of a name is the one whose notice has it.
pub fn notice_numbers_are_read()
    ensures { NoticeNumbersAreRead }
{}
