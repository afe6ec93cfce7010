//! What a session of mail will do is known before its first change.
ghost use Rattle.std.specs.Prelude.{◌≡◌, IfErr, IfOk, IsTrue, List};
ghost use Rattle.host_calls.specs.Session.{CallsInside, IsInside};
ghost use Rattle.mail_notes.specs.Book.{AreStatesOfNotes};
ghost use Rattle.mail_notes.specs.declared.note.Note.{Note};
ghost use Rattle.mail_session.specs.Steps.{AreDuesOf};
ghost use Rattle.mail_session.specs.inside.PlannedSession.{Plans, PlansOn};
ghost use Rattle.spool_model.specs.JobTable.{JobTable};
ghost use Rattle.host_calls.specs.StoreFaults.{IsReadingFault};
ghost use Rattle.step_runs.specs.Current.{IsCurrent};

use crate::new_jobs::new_jobs_of;
use crate::note_lines::add_note_lines;
use crate::stale::stale_names;
use crate::{NoticeDue, ReadNotes, dues_of, read_notes};
use daemon_turn::Kid;
use host_calls::{Host, Name};
use mail_notes::{NotedJob, NoticeStates};
use spool_store::{Store, StoreFault};
use std::alloc::{AllocError, Global};

// What a session will do.
#[derive(Drop)]
pub(crate) struct MailPlan {
    // The jobs that are noted.
    pub(crate) new_jobs: Vec<NotedJob>,
    // What is due of those that were noted before.
    pub(crate) due_notices: Vec<NoticeDue>,
    // The text of the notes, and of the new ones after them.
    pub(crate) text: Vec<u8>,
    // The names of the files of mail that are left over.
    pub(crate) stale: Vec<Name>,
}

// Recovers the store, and reads what a session with these children will do.
pub(crate) fn mail_plan<H: Host>(
    alloc: Global,
    host: &mut H,
    kids: &[Kid],
) -> Result<MailPlan, StoreFault>
    requires { IsInside (H.session host.old) }
    ensures inside { CallsInside StoreFault.FileFault (H.session host.old) (H.session host.new) result }
    ensures of_reading { IfErr result IsReadingFault }
    ensures plans { Plans H.tells (H.world host.old) (H.world host.new) kids.now result }
{
    let store = Store::recover(alloc, host)?;
    plan_on(alloc, host, &store, kids)
}

// What a session will do on the store.
fn plan_on<H: Host>(
    alloc: Global,
    host: &mut H,
    store: &Store,
    kids: &[Kid],
) -> Result<MailPlan, StoreFault>
    requires inside { IsInside (H.session host.old) }
    requires current { IsTrue H.tells → (table : JobTable)
        × IsCurrent store.now (H.world host.old).now.directory table }
    ensures inside { CallsInside StoreFault.FileFault (H.session host.old) (H.session host.new) result }
    ensures of_reading { IfErr result IsReadingFault }
    ensures looks { IsTrue H.tells → H.world host.new ≡ H.world host.old }
    ensures plans { PlansOn H.tells (H.world host.old) store.now kids.now result }
{
    let ReadNotes {
        mut text,
        notice_states,
    } = read_notes(alloc, host)?;
    let new_jobs = new_jobs_of(alloc, host, store, &notice_states)?;
    let due_notices = dues_now(alloc, store, &notice_states)?;
    let stale = stale_names(alloc, host, kids)?;
    add_note_lines(&mut text, new_jobs.as_slice())?;
    Ok(MailPlan {
        new_jobs,
        due_notices,
        text,
        stale,
    })
}

// What is due of the jobs that wait by the book.
fn dues_now(
    alloc: Global,
    store: &Store,
    notice_states: &NoticeStates,
) -> Result<Vec<NoticeDue>, AllocError>
    ensures { IfOk result (λ due_notices. (notes : List Note) → AreStatesOfNotes notes notice_states.now
        → AreDuesOf store.now.table notes due_notices.items) }
{
    let jobs = notice_states.waiting(alloc)?;
    let due_notices = dues_of(alloc, store, jobs.as_slice())?;
    Ok(due_notices)
}
