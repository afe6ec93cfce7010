//! A trim, in a session of its own.
ghost use Rattle.std.specs.Prelude.{IfErr, IsTrue};
ghost use Rattle.host_calls.specs.Session.{CallsInside, IsInside, IsOutside};
ghost use Rattle.host_calls.specs.StoreFaults.{IsReadingFault};
ghost use Rattle.host_calls.specs.SessionEnds.{end_after};
ghost use Rattle.at_mail.specs.TrimOutcome.{TrimLeaves, TrimsTo};

use crate::trim_read::all_notes;
use crate::trim_write::write_kept;
use host_calls::{Host, StoreFault, TurnEnd, end_of_session, in_session};
use spool_store::Store;
use std::alloc::Global;

/// Drops the notes of jobs that are done and whose notice was sent or dropped, by one replacement of the file of notes.
/// All other notes stay, in their order.
pub fn trim<H: Host>(alloc: Global, host: &mut H) -> TurnEnd
    requires { IsOutside (H.session host.old) }
    ensures { TrimsTo H.tells H.alone (H.session host.old) (H.session host.new)
        (H.world host.old) (H.world host.new) result }
{
    let worked = in_session(alloc, host, &mut |host| trim_session_body(alloc, host));
    end_of_session(worked)
}

// Recovers the store, reads the notes, and keeps those that stay.
fn trim_session_body<H: Host>(alloc: Global, host: &mut H) -> Result<(), StoreFault>
    requires { IsInside (H.session host.old) }
    ensures inside { CallsInside StoreFault.FileFault (H.session host.old) (H.session host.new) result }
    ensures of_reading { IfErr result IsReadingFault }
    ensures leaves { IsTrue H.tells → TrimLeaves (H.world host.old) (H.world host.new) (end_after result) }
{
    let store = Store::recover(alloc, host)?;
    let mut read = all_notes(alloc, host)?;
    write_kept(alloc, host, &store, &mut read)?;
    Ok(())
}
