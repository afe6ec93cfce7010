//! The jobs that are new are noted, in a session of its own that sends and removes nothing.
ghost use Rattle.std.specs.Prelude.{◌≡◌, IfErr, IfOk, IsTrue, OnOk};
ghost use Rattle.std.specs.FinMap as map;
ghost use Rattle.host_calls.specs.Damages.{IfDamaged};
ghost use Rattle.host_calls.specs.Session.{CallsInside, IsInside, IsOutside};
ghost use Rattle.host_calls.specs.SessionEnds.{end_after};
ghost use Rattle.host_calls.specs.StoreFaults.{IsReadingFault};
ghost use Rattle.host_calls.specs.World.{reading};
ghost use Rattle.mail_notes.specs.Names.{mail_file, mail_temp};
ghost use Rattle.mail_session.specs.ReadNotes.{IsDamageOf};
ghost use Rattle.spool_model.specs.JobTable.{JobTable};
ghost use Rattle.step_runs.specs.Current.{IsCurrent};
ghost use Rattle.whole_file.specs.Others.{ChangesFiles};
ghost use Rattle.whole_file.specs.Placement.{IsPlacing};
ghost use Rattle.whole_file.specs.TempFiles.{IsDurableAt};
ghost use Rattle.at_mail.specs.NotingOutcome.{NotesNewJobs, NotingLeaves};
ghost use Rattle.at_mail.specs.inside.FoundNews.{AreNewsOn, IsNewsWritten};

use host_calls::{Host, HostFault, StoreFault, TurnEnd, end_of_session, in_session};
use mail_notes::{NotedJob, mail_name, mail_temp_name};
use mail_session::{ReadNotes, add_note_lines, new_jobs_of, read_notes};
use spool_store::Store;
use std::alloc::Global;
use whole_file::replace;

// The jobs that are new, and the text of all notes.
#[derive(Drop)]
struct News {
    new_jobs: Vec<NotedJob>,
    text: Vec<u8>,
}

/// Notes the live jobs that no note is of, by one replacement of the file of notes.
pub fn note_new_jobs<H: Host>(alloc: Global, host: &mut H) -> TurnEnd
    requires { IsOutside (H.session host.old) }
    ensures { NotesNewJobs H.tells H.alone (H.session host.old) (H.session host.new)
        (H.world host.old) (H.world host.new) result }
{
    let worked = in_session(alloc, host, &mut |host| note_session_body(alloc, host));
    end_of_session(worked)
}

// Recovers the store, reads the notes, and writes them with those of the new jobs.
fn note_session_body<H: Host>(alloc: Global, host: &mut H) -> Result<(), StoreFault>
    requires { IsInside (H.session host.old) }
    ensures inside { CallsInside StoreFault.FileFault (H.session host.old) (H.session host.new) result }
    ensures of_reading { IfErr result IsReadingFault }
    ensures leaves { IsTrue H.tells → NotingLeaves (H.world host.old) (H.world host.new) (end_after result) }
{
    let store = Store::recover(alloc, host)?;
    let news = news_on(alloc, host, &store)?;
    write_news(alloc, host, news.new_jobs.as_slice(), news.text.as_slice())?;
    Ok(())
}

// The jobs that are new on the store.
fn news_on<H: Host>(alloc: Global, host: &mut H, store: &Store) -> Result<News, StoreFault>
    requires inside { IsInside (H.session host.old) }
    requires current { IsTrue H.tells → (table : JobTable)
        × IsCurrent store.now (H.world host.old).now.directory table }
    ensures inside { CallsInside StoreFault.FileFault (H.session host.old) (H.session host.new) result }
    ensures of_reading { IfErr result IsReadingFault }
    ensures looks { IsTrue H.tells → H.world host.new ≡ H.world host.old }
    ensures news { IfOk result (λ news.
        AreNewsOn H.tells (H.world host.old) store.now news.new_jobs.items news.text.items) }
    ensures damaged { IsTrue H.tells → IfDamaged StoreFault.Damaged
        (IsDamageOf (map.get (reading (H.world host.old)) mail_file)) result }
{
    let ReadNotes {
        mut text,
        notice_states,
    } = read_notes(alloc, host)?;
    let new_jobs = new_jobs_of(alloc, host, store, &notice_states)?;
    add_note_lines(&mut text, new_jobs.as_slice())?;
    Ok(News { new_jobs, text })
}

// Gives the file this text, unless there are no new jobs.
fn write_news<H: Host>(
    alloc: Global,
    host: &mut H,
    new_jobs: &[NotedJob],
    text: &[u8],
) -> Result<(), HostFault>
    requires inside { IsInside (H.session host.old) }
    requires durable { IsTrue H.tells → IsDurableAt mail_temp (H.world host.old).now.directory }
    ensures inside { CallsInside HostFault.Failed (H.session host.old) (H.session host.new) result }
    ensures files { IsTrue H.tells → ChangesFiles (IsPlacing mail_temp mail_file text.now
        (H.world host.old).now.directory) (H.world host.old) (H.world host.new) }
    ensures written { IsTrue H.tells → OnOk result
        (IsNewsWritten new_jobs.now text.now (H.world host.old) (H.world host.new)) }
{
    if new_jobs.is_empty() {
        return Ok(());
    }
    replace(alloc, host, &mail_temp_name(), &mail_name(), text)
}
