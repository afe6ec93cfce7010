//! What holds of every directory, each law as the contract of a function.
ghost use Rattle.spool_shows.specs.DamageLaws.{DirectoriesShowTheirFirstDamage, UndamagedDirectoriesShowTables};
ghost use Rattle.spool_shows.specs.Examples.{SmallDirectoriesAreDamaged, SmallDirectoriesShow, SmallDirectoriesShowOldForm};
ghost use Rattle.spool_shows.specs.Laws.{AcceptsAreShown, CompactionsAreShown, DrawsAreShown, DirectoriesAreShownByName, DirectoriesWithoutSequenceShowNoEntry, LegalStepsAddLegalMarks, MarksAreShown, OtherFilesCountForNothing, RewritesAreShown, ShownJobsHaveHeaders, ShownTablesAreSound};
ghost use Rattle.spool_shows.specs.OldForm.{OldFormDirectoriesShowTheSame, OldFormTablesAreShown};

/// What small directories show, computed.
pub fn small_directories()
    ensures show { SmallDirectoriesShow }
    ensures damaged { SmallDirectoriesAreDamaged }
    ensures old_form { SmallDirectoriesShowOldForm }
{}

/// What a directory shows is what each of its names and numbers shows.
pub fn directories_are_shown_by_name()
    ensures { DirectoriesAreShownByName }
{}

/// A directory shows its first damage, and a table exactly where it has none.
pub fn directories_show_their_first_damage()
    ensures damage { DirectoriesShowTheirFirstDamage }
    ensures table { UndamagedDirectoriesShowTables }
{}

/// The table that a directory shows is sound.
pub fn shown_tables_are_sound()
    ensures { ShownTablesAreSound }
{}

/// The script of each live job that a directory shows begins with a header of its user.
pub fn shown_jobs_have_headers()
    ensures { ShownJobsHaveHeaders }
{}

/// A directory without a sequence file shows a damage, or a table without entries.
pub fn directories_without_sequence_show_no_entry()
    ensures { DirectoriesWithoutSequenceShowNoEntry }
{}

/// Files under other names, and those of finished numbers, count for nothing.
pub fn other_files_count_for_nothing()
    ensures { OtherFilesCountForNothing }
{}

/// A sequence file with the next number shows the table after its draw.
pub fn draws_are_shown()
    ensures { DrawsAreShown }
{}

/// The file of a job under the next number shows the table after its draw and its accept.
pub fn accepts_are_shown()
    ensures { AcceptsAreShown }
{}

/// One more mark in the journal shows the table after the step of that mark.
pub fn marks_are_shown()
    ensures shown { MarksAreShown }
    ensures legal { LegalStepsAddLegalMarks }
{}

/// A compacted journal shows the same table.
pub fn compactions_are_shown()
    ensures { CompactionsAreShown }
{}

/// A journal that was written anew with the same marks shows the same table.
pub fn rewrites_are_shown()
    ensures { RewritesAreShown }
{}

/// A directory without names in the new form shows the table that it shows by the old form alone, as spools were read
/// before numbers of eight digits. With a last number in that form it shows the same, be it a table or a damage.
pub fn old_form_directories_show_the_same()
    ensures tables { OldFormTablesAreShown }
    ensures damages { OldFormDirectoriesShowTheSame }
{}
