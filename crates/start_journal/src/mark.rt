//! A mark of the journal.
ghost use Rattle.std.specs.Prelude.{◌≡◌};
ghost use Rattle.start_journal.specs.Marks.{number_of_mark};

use host_calls::Ending;

/// What became of a number, or when a batch job was started last.
#[derive(Clone, Copy, Debug, PartialEq, Eq)]
pub enum Mark {
    /// The pending job was removed.
    Removed(u32),
    /// The job of this queue was started at this second.
    Started { number: u32, queue: u8, second: i64 },
    /// The started job has ended so.
    Ended { number: u32, ending: Ending },
    /// The started job was given up.
    Interrupted(u32),
    /// What became of the number is no longer kept.
    Forgotten(u32),
    /// A job of a batch queue was started at this second.
    Batch(i64),
}

impl Mark {
    /// The number that it names, if it names one.
    pub fn number(self) -> Option<u32>
        ensures { result ≡ number_of_mark self }
    {
        match self {
            Mark::Removed(number) | Mark::Interrupted(number) | Mark::Forgotten(number) => {
                Some(number)
            }
            Mark::Started { number, .. } | Mark::Ended { number, .. } => Some(number),
            Mark::Batch(_) => None,
        }
    }
}
