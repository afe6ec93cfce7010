//! The journal as it was read.
ghost use Rattle.std.specs.Prelude.{◌≡◌};
ghost use Rattle.start_journal.specs.Journals.{AreWritable};
ghost use Rattle.start_journal.specs.Marks.{AreLegalMarks};

use crate::Mark;
use std::marker::Model;

/// The marks of the journal and how many of its slots are free.
#[derive(Drop)]
pub struct Journal {
    pub(crate) marks: Vec<Mark>,
    pub(crate) free: u64,
}

impl Model for Journal {
    ghost use Rattle.std.specs.Prelude.{IsTrue};
    ghost use Rattle.start_journal.specs.Journals.{JournalRead, are_sound};

    ghost Value = { JournalRead };

    ghost view = { λ journal. record { marks = journal.marks.items; free = journal.free } };

    ghost invariant = { λ journal. IsTrue (are_sound journal.marks.items) };
}

impl Journal {
    /// The marks, in their order.
    pub fn marks(&self) -> &[Mark]
        ensures marks { result.now ≡ self.now.marks }
        ensures legal { AreLegalMarks self.now.marks }
        ensures writable { AreWritable self.now.marks }
    {
        self.marks.as_slice()
    }

    /// How many slots are free.
    pub fn free(&self) -> u64
        ensures { result ≡ self.now.free }
    {
        self.free
    }
}
