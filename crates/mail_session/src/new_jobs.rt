//! The live jobs that no note is of.
ghost use Rattle.std.specs.Prelude.{◌≡◌, ◌++◌, ◌∷◌, [], IfOk, IsTrue, List, OnOk, map};
ghost use Rattle.std.specs.List.{All};
ghost use Rattle.host_calls.specs.Session.{CallsInside, IsInside};
ghost use Rattle.host_calls.specs.World.{reading};
ghost use Rattle.mail_notes.specs.Book.{AreStatesOfNotes};
ghost use Rattle.mail_notes.specs.Lines.{IsNotedJob};
ghost use Rattle.mail_notes.specs.declared.note.Note.{Note};
ghost use Rattle.mail_session.specs.News.{IsNotedFrom, is_new, new_numbers};
ghost use Rattle.spool_model.specs.JobTable.{JobTable};
ghost use Rattle.spool_model.specs.Lists.{live_rows};
ghost use Rattle.spool_model.specs.Users.{IsUserName};
ghost use Rattle.spool_store.specs.Listed.{IsLive};
ghost use Rattle.step_runs.specs.Current.{IsCurrent};

use host_calls::{Host, HostFault};
use mail_notes::{NotedJob, NoticeStates};
use spool_model::{Row, UserName};
use spool_store::Store;
use std::alloc::{AllocError, Global};

/// The live jobs that no note of the book is of, by number, each with its file, and with the user and the mail flag of
/// the header of its script.
pub fn new_jobs_of<H: Host>(
    alloc: Global,
    host: &mut H,
    store: &Store,
    notice_states: &NoticeStates,
) -> Result<Vec<NotedJob>, HostFault>
    requires inside { IsInside (H.session host.old) }
    requires current { IsTrue H.tells → (table : JobTable)
        × IsCurrent store.now (H.world host.old).now.directory table }
    ensures inside { CallsInside HostFault.Failed (H.session host.old) (H.session host.new) result }
    ensures looks { IsTrue H.tells → H.world host.new ≡ H.world host.old }
    ensures numbers { IfOk result (λ new_jobs. (notes : List Note) → AreStatesOfNotes notes notice_states.now
        → map (λ job. job.number) new_jobs.items ≡ new_numbers store.now.table notes) }
    ensures can { IfOk result (λ new_jobs. All IsNotedJob new_jobs.items) }
    ensures noted { IsTrue H.tells → (table : JobTable) → IsCurrent store.now (H.world host.old).now.directory table
        → IfOk result (λ new_jobs. All (IsNotedFrom (reading (H.world host.old)) table) new_jobs.items) }
{
    let numbers = new_numbers(alloc, store, notice_states)?;
    noted_jobs(alloc, host, store, numbers.as_slice())
}

// The numbers of the live jobs that no note of the book is of.
fn new_numbers(
    alloc: Global,
    store: &Store,
    notice_states: &NoticeStates,
) -> Result<Vec<u32>, AllocError>
    ensures numbers { IfOk result (λ numbers. (notes : List Note) → AreStatesOfNotes notes notice_states.now
        → numbers.items ≡ new_numbers store.now.table notes) }
    ensures live { IfOk result (λ numbers. All (IsLive store.now.table) numbers.items) }
{
    let mut numbers = live_numbers(alloc, store)?;
    numbers.retain(|number| is_new(notice_states, *number));
    Ok(numbers)
}

// The numbers of the live jobs.
fn live_numbers(alloc: Global, store: &Store) -> Result<Vec<u32>, AllocError>
    ensures numbers { IfOk result (λ numbers. numbers.items ≡ map (λ row. row.number) (live_rows store.now.table)) }
    ensures live { IfOk result (λ numbers. All (IsLive store.now.table) numbers.items) }
{
    let numbers = numbers_of_live_rows(alloc, store.rows())?;
    Ok(numbers)
}

// The numbers of these rows.
fn numbers_of_live_rows(alloc: Global, rows: &[Row]) -> Result<Vec<u32>, AllocError>
    ensures { IfOk result (λ numbers. numbers.items ≡ map (λ row. row.number) rows.now) }
{
    rows.iter().map(|row| row.number).collect(alloc)
}

// Whether no note of the book is of the number.
fn is_new(notice_states: &NoticeStates, number: u32) -> bool
    ensures { (notes : List Note) → AreStatesOfNotes notes notice_states.now → result ≡ is_new notes number }
{
    notice_states.state_of(number).is_none()
}

// The jobs of the numbers, as they are noted.
fn noted_jobs<H: Host>(
    alloc: Global,
    host: &mut H,
    store: &Store,
    numbers: &[u32],
) -> Result<Vec<NotedJob>, HostFault>
    requires inside { IsInside (H.session host.old) }
    requires live { All (IsLive store.now.table) numbers.now }
    requires current { IsTrue H.tells → (table : JobTable)
        × IsCurrent store.now (H.world host.old).now.directory table }
    ensures inside { CallsInside HostFault.Failed (H.session host.old) (H.session host.new) result }
    ensures looks { IsTrue H.tells → H.world host.new ≡ H.world host.old }
    ensures numbers { IfOk result (λ new_jobs. map (λ job. job.number) new_jobs.items ≡ numbers.now) }
    ensures can { IfOk result (λ new_jobs. All IsNotedJob new_jobs.items) }
    ensures noted { IsTrue H.tells → (table : JobTable) → IsCurrent store.now (H.world host.old).now.directory table
        → IfOk result (λ new_jobs. All (IsNotedFrom (reading (H.world host.old)) table) new_jobs.items) }
{
    let mut new_jobs = Vec::new(alloc);
    for number in numbers {
        let job = noted_job(alloc, host, store, *number)?;
        keep_job(&mut new_jobs, job)?;
    }
    Ok(new_jobs)
}

// Puts the job after the others.
fn keep_job(new_jobs: &mut Vec<NotedJob>, job: NotedJob) -> Result<(), AllocError>
    ensures { OnOk result (new_jobs.new.items ≡ new_jobs.old.items ++ job ∷ []) }
{
    new_jobs.push(job)?;
    Ok(())
}

// The live job of the number, as it is noted.
fn noted_job<H: Host>(
    alloc: Global,
    host: &mut H,
    store: &Store,
    number: u32,
) -> Result<NotedJob, HostFault>
    requires inside { IsInside (H.session host.old) }
    requires live { IsLive store.now.table number }
    requires current { IsTrue H.tells → (table : JobTable)
        × IsCurrent store.now (H.world host.old).now.directory table }
    ensures inside { CallsInside HostFault.Failed (H.session host.old) (H.session host.new) result }
    ensures looks { IsTrue H.tells → H.world host.new ≡ H.world host.old }
    ensures number { IfOk result (λ job. job.number ≡ number) }
    ensures can { IfOk result IsNotedJob }
    ensures noted { IsTrue H.tells → (table : JobTable) → IsCurrent store.now (H.world host.old).now.directory table
        → IfOk result (IsNotedFrom (reading (H.world host.old)) table) }
{
    let file = store.file(number).unwrap();
    let header = store.header(alloc, host, number)?;
    let user = user_named(header.user);
    Ok(NotedJob {
        number,
        file,
        always: header.mail,
        user,
    })
}

// The name of a user, which is one.
fn user_named(user: UserName) -> UserName
    ensures same { result ≡ user }
    ensures named { IsUserName result }
{
    prove!(!user.as_bytes().is_empty());
    user
}
