//! What holds of every legal list of marks and of every slot, each law as the contract of a function.
ghost use Rattle.start_journal.specs.DamageLaws.{JournalsAreDamaged, JournalsAreGiven, WholeJournalsAreGiven};
ghost use Rattle.start_journal.specs.JournalLaws.{JournalsReadBack, RightPrefixesAreLongest, SlotsGiveTheirMarks};
ghost use Rattle.start_journal.specs.Laws.{KeptMarksAreLegal, KeptMarksKeepWhatCounts, MarksHaveOneSlot, NumbersLiveOnce, SlotsSpellOneMark};

/// A slot spells one mark, and a mark has one slot.
pub fn marks_have_one_spelling()
    ensures marks { SlotsSpellOneMark }
    ensures slots { MarksHaveOneSlot }
{}

/// Each number is removed, or started and then ended or given up, and then forgotten, each at most once.
pub fn numbers_live_once()
    ensures { NumbersLiveOnce }
{}

/// What a compaction keeps is legal.
pub fn kept_marks_are_legal()
    ensures { KeptMarksAreLegal }
{}

/// What a compaction keeps has the same open and remembered numbers and the same last batch start.
pub fn kept_marks_keep_what_counts()
    ensures { KeptMarksKeepWhatCounts }
{}

/// The mark that the bytes of a slot give is the one that it spells.
pub fn slots_give_their_marks()
    ensures { SlotsGiveTheirMarks }
{}

/// A journal that was placed whole reads back.
pub fn journals_read_back()
    ensures { JournalsReadBack }
{}

/// The right prefix of a slot is its longest prefix that some mark's slot has too.
pub fn right_prefixes_are_longest()
    ensures { RightPrefixesAreLongest }
{}

/// A journal is damaged at its first fault, and gives its marks exactly where it has none.
pub fn journals_are_damaged_at_their_first_fault()
    ensures damaged { JournalsAreDamaged }
    ensures given { JournalsAreGiven }
    ensures whole { WholeJournalsAreGiven }
{}
