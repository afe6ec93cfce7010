//! Starts whose jobs have no file, with numbers above the last one.
ghost use Rattle.std.specs.Prelude.{◌≡◌, List};
ghost use Rattle.std.specs.List.{list_any};
ghost use Rattle.spool_faults.specs.Salvaged.{is_orphan};
ghost use Rattle.spool_faults.specs.inside.FoundFiles.{AreDecidedNumbers, AreQueues};
ghost use Rattle.spool_shows.specs.JobFiles.{JobFile};
ghost use Rattle.start_journal.specs.declared.mark.Mark.{Mark};

use start_journal::Mark;
use std::collections::{BTreeMap, BTreeSet};

// Whether one of the marks is an orphan.
pub(crate) fn has_orphan(
    last: u32,
    marks: &[Mark],
    decided: &BTreeSet<u32>,
    queues: &BTreeMap<u32, u8>,
) -> bool
    ensures { (all : List Mark) (files : List JobFile) → AreDecidedNumbers all decided.now → AreQueues files queues.now
        → result ≡ list_any (is_orphan last all files) marks.now }
{
    marks
        .iter()
        .any(|mark| is_orphan(last, *mark, decided, queues))
}

fn is_orphan(last: u32, mark: Mark, decided: &BTreeSet<u32>, queues: &BTreeMap<u32, u8>) -> bool
    ensures { (all : List Mark) (files : List JobFile) → AreDecidedNumbers all decided.now → AreQueues files queues.now
        → result ≡ is_orphan last all files mark }
{
    match mark {
        Mark::Started { number, .. } => {
            last < number && !decided.contains(&number) && !queues.contains_key(&number)
        }
        Mark::Removed(_)
        | Mark::Ended { .. }
        | Mark::Interrupted(_)
        | Mark::Forgotten(_)
        | Mark::Batch(_) => false,
    }
}
