//! Submissions.
ghost use Rattle.std.specs.Prelude.{◌≡◌, IfErr, IfOk, IsErrOf, IsSome, IsTrue, OnOk, true};
ghost use Rattle.std.specs.Char.{is_ascii_alphabetic};
ghost use Rattle.host_calls.specs.ClockRange.{IsClockMinute};
ghost use Rattle.host_calls.specs.Session.{CallsInside, IsInside};
ghost use Rattle.job_script.specs.HeaderIn.{header_in};
ghost use Rattle.spool_model.specs.JobTable.{JobTable};
ghost use Rattle.spool_model.specs.Steps.{after_steps, submission};
ghost use Rattle.step_runs.specs.WithoutScripts.{job_without_script};
ghost use Rattle.step_runs.specs.Calls.{StoreCall};
ghost use Rattle.step_runs.specs.Current.{IsCurrent, Kept};
ghost use Rattle.spool_store.specs.Submission.{HasNewFormFile, IsAnswerOn, IsNextNumber, IsNextOn, IsRefusal, job_of_script, kept_after_submission, with_job_if};

use crate::{Store, StoreFault};
use host_calls::{Host, HostFault};
use job_name::JobName;
use job_script::header;
use sequence_file::draw;
use spool_model::{LAST_NUMBER, MAX_LIVE, Row, State};
use std::alloc::Global;
use whole_file::{place, temporary_name};

impl Store {
    /// Draws the next number, and accepts a pending job under it, whose script begins with the header of
    /// its user. A refusal changes nothing.
    pub fn submit<H: Host>(
        mut self,
        alloc: Global,
        host: &mut H,
        queue: u8,
        minute: u32,
        script: &[u8],
    ) -> Result<(Store, u32), StoreFault>
        requires inside { IsInside (H.session host.old) }
        requires queue { IsTrue (is_ascii_alphabetic queue) }
        requires minute { IsClockMinute minute }
        requires header { IsSome (header_in script.now) }
        requires current { IsTrue H.tells → (table : JobTable)
            × IsCurrent self (H.world host.old).now.directory table }
        ensures inside { CallsInside StoreFault.FileFault (H.session host.old) (H.session host.new) result }
        ensures answer { IsAnswerOn self.table result }
        ensures queue_full { IsErrOf result StoreFault.QueueFull → host.new ≡ host.old }
        ensures used_up { IsErrOf result StoreFault.NumbersUsedUp → host.new ≡ host.old }
        ensures kept { IfOk result (λ stored. stored.0.table ≡ after_steps self.table
            (submission self.table (job_without_script (job_of_script queue minute script.now)))) }
        ensures files { IsTrue H.tells → (table : JobTable) → IsCurrent self (H.world host.old).now.directory table
            → StoreCall table (submission table (job_of_script queue minute script.now))
            (H.world host.old) (H.world host.new) (kept_after_submission result) }
        ensures named { IsTrue H.tells → IfOk result (λ stored. HasNewFormFile (H.world host.new).now.directory
            queue minute script.now stored.1) }
    {
        let number = self.next_number()?;
        let user = header(script).unwrap().user;
        // Memory for the job is had first, so that want of it loses no number.
        self.jobs.draw();
        self.jobs.accept(Row {
            number,
            queue,
            minute,
            user,
            state: State::Pending,
        })?;
        let job = JobName {
            queue,
            number,
            minute,
            new_form: true,
        };
        file_job(alloc, host, &job, script)?;
        Ok((self, number))
    }

    // The number of the next job, where there is room for one.
    fn next_number(&self) -> Result<u32, StoreFault>
        ensures number { IfOk result (IsNextNumber self.now.table) }
        ensures refused { IfErr result (IsRefusal self.now.table) }
    {
        if self.jobs.rows().len() >= MAX_LIVE {
            return Err(StoreFault::QueueFull);
        }
        let last = self.jobs.last();
        if last >= LAST_NUMBER {
            return Err(StoreFault::NumbersUsedUp);
        }
        Ok(last + 1)
    }
}

// Draws the number of the job, which is the next one, and places the file of the job under it.
fn file_job<H: Host>(
    alloc: Global,
    host: &mut H,
    job: &JobName,
    script: &[u8],
) -> Result<(), HostFault>
    requires inside { IsInside (H.session host.old) }
    requires header { IsSome (header_in script.now) }
    requires new_form { job.now.new_form ≡ true }
    requires current { IsTrue H.tells → (kept : Kept) × (table : JobTable)
        × IsNextOn kept (H.world host.old).now.directory table job.now.number }
    ensures inside { CallsInside HostFault.Failed (H.session host.old) (H.session host.new) result }
    ensures files { IsTrue H.tells → (kept : Kept) (table : JobTable)
        → IsNextOn kept (H.world host.old).now.directory table job.now.number
        → StoreCall table (submission table (job_of_script job.now.queue job.now.minute script.now))
        (H.world host.old) (H.world host.new)
        (with_job_if kept (job_of_script job.now.queue job.now.minute script.now) result) }
    ensures named { IsTrue H.tells → OnOk result (HasNewFormFile (H.world host.new).now.directory
        job.now.queue job.now.minute script.now job.now.number) }
{
    let name = job.name();
    // A file whose number was not drawn would be damage.
    draw(alloc, host, job.number - 1)?;
    place(alloc, host, &temporary_name(), &name, script)
}
