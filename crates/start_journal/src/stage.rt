//! How far a number has come.
ghost use Rattle.std.specs.Prelude.{◌≡◌};
ghost use Rattle.start_journal.specs.Stages.{allows};

use crate::Mark;

/// How far the marks of a number have come.
#[derive(Clone, Copy, Debug, PartialEq, Eq)]
pub enum Stage {
    /// No mark names it.
    Fresh,
    /// It was started, and neither ended nor given up.
    Open,
    /// It is finished: it was removed, has ended or was given up.
    Closed,
    /// What became of it is no longer kept.
    Gone,
}

impl Stage {
    // Whether the mark may come at this stage of its number.
    pub(crate) fn allows(self, mark: Mark) -> bool
        ensures { result ≡ allows self mark }
    {
        match mark {
            Mark::Removed(_) | Mark::Started { .. } => self == Stage::Fresh,
            Mark::Ended { .. } | Mark::Interrupted(_) => self == Stage::Open,
            Mark::Forgotten(_) => self == Stage::Closed,
            Mark::Batch(_) => true,
        }
    }
}
