//! A compaction of the journal, on a directory that was settled just before.
ghost use Rattle.host_calls.specs.Session.{IsInside, StaysInside};

use host_calls::Host;
use start_journal::{Journal, JournalFault};
use std::alloc::Global;
use whole_file::{content, temporary_name};

// Compacts the journal. Its host calls are `settle`, two that look for a file that is being made and for the journal, two
// that read it, and the four of a file that is replaced.
pub(crate) fn compact<H: Host>(alloc: Global, host: &mut H) -> Result<Option<Journal>, JournalFault>
    requires { IsInside (H.session host.old) }
    ensures { StaysInside (H.session host.old) (H.session host.new) }
{
    host.settle(alloc)?;
    match content(alloc, host, &temporary_name())? {
        Some(_) => Ok(None),
        None => {
            let journal = Journal::recall(alloc, host, 1)?;
            Ok(Some(journal.compact(alloc, host)?))
        }
    }
}
