//! The files of live jobs.
ghost use Rattle.std.specs.Prelude.{◌≡◌, IfNone, IfOk, IfSome, IsTrue};
ghost use Rattle.host_calls.specs.Directory.{Directory};
ghost use Rattle.host_calls.specs.Session.{CallsInside, IsInside};
ghost use Rattle.spool_model.specs.JobTable.{JobTable};
ghost use Rattle.step_runs.specs.Current.{IsCurrent};
ghost use Rattle.spool_store.specs.Listed.{IsLive};
ghost use Rattle.spool_store.specs.Scripts.{HoldsScript, IsLiveFileName, IsHeaderOn, IsScriptOf};

use crate::Store;
use host_calls::{Bytes, Host, HostFault, Name};
use job_name::JobName;
use job_script::{JobHeader, MAX_HEADER, header};
use std::alloc::Global;

impl Store {
    /// The name of the live job's file, which holds its script. None where no live job has the number.
    pub fn file(&self, number: u32) -> Option<Name>
        ensures found { IfSome result (IsLiveFileName self.now.table self.now.old_form number) }
        ensures absent { IfNone result (IsLive self.now.table number → ⊥) }
        ensures holds { (directory : Directory) (table : JobTable) → IsCurrent self.now directory table
            → IfSome result (HoldsScript table directory number) }
    {
        let row = self.jobs.row(number)?;
        let job = JobName {
            queue: row.queue,
            number,
            minute: row.minute,
            new_form: !self.old_form.contains(&number),
        };
        Some(job.name())
    }

    /// The script of the live job of this number.
    pub fn script<H: Host>(
        &self,
        alloc: Global,
        host: &mut H,
        number: u32,
    ) -> Result<Bytes, HostFault>
        requires inside { IsInside (H.session host.old) }
        requires live { IsLive self.now.table number }
        requires current { IsTrue H.tells → (table : JobTable)
            × IsCurrent self.now (H.world host.old).now.directory table }
        ensures inside { CallsInside HostFault.Failed (H.session host.old) (H.session host.new) result }
        ensures looks { IsTrue H.tells → H.world host.new ≡ H.world host.old }
        ensures script { IsTrue H.tells → (table : JobTable)
            → IsCurrent self.now (H.world host.old).now.directory table → IfOk result (IsScriptOf table number) }
    {
        let name = self.file(number).unwrap();
        let length = host.length(alloc, &name)?;
        let bytes = host.read(alloc, &name, 0, length as usize)?;
        Ok(Bytes::from(bytes))
    }

    /// Whose the live job of this number is, and whether its output is mailed in any case, by the first bytes of its
    /// file. Where the host has other bytes there than the table says, it is the user's that the table has.
    pub fn header<H: Host>(
        &self,
        alloc: Global,
        host: &mut H,
        number: u32,
    ) -> Result<JobHeader, HostFault>
        requires inside { IsInside (H.session host.old) }
        requires live { IsLive self.now.table number }
        requires current { IsTrue H.tells → (table : JobTable)
            × IsCurrent self.now (H.world host.old).now.directory table }
        ensures inside { CallsInside HostFault.Failed (H.session host.old) (H.session host.new) result }
        ensures looks { IsTrue H.tells → H.world host.new ≡ H.world host.old }
        ensures header { IsTrue H.tells → (table : JobTable)
            → IsCurrent self.now (H.world host.old).now.directory table → IfOk result (IsHeaderOn table number) }
    {
        let row = self.jobs.row(number).unwrap();
        let name = self.file(number).unwrap();
        let bytes = host.read(alloc, &name, 0, MAX_HEADER)?;
        match header(bytes.as_slice()) {
            Some(found) => Ok(found),
            None => Ok(JobHeader {
                user: row.user,
                mail: false,
            }),
        }
    }
}
