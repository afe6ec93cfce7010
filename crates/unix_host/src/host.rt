//! A spool directory on a disk.
ghost use Rattle.std.specs.Prelude.{◌≡◌, ◌≢◌, ◌≤◌, [], false, Contains, IsErrOf, IsSome, IsSorted, IfOk, IfSome, OnOk, Ok, None, Some, slice_get, vec_len};
ghost use Rattle.host_calls.specs.Causes.{HasCause, Rose};
ghost use Rattle.host_calls.specs.Directory.{name_cmp};
ghost use Rattle.host_calls.specs.Session.{IsInside, IsLeft, IsOutside, CallsInside, Enters, Starts, StaysInside};
ghost use Rattle.unix_host.specs.Counted.{CountsEnters, CountsFiles, CountsNothing, CountsStarts};
ghost use Rattle.unix_host.specs.declared.unsynced.Unsynced.{Unsynced};
ghost use Rattle.unix_host.specs.UnixHost.{ending_in, listed_names, starts_of, unix_session, known_unsynced, torn_file, unsynced_of};
ghost use Rattle.witnessed_host.specs.EmptyWorld.{empty_world};

use crate::absent::Absent;
use crate::finish::finish;
use crate::job::{ChildProcess, JobStart, ending_of};
use crate::locked::LockedDirectory;
use crate::naming::Naming;
use crate::waits::Waits;
use crate::{job, read_file};
use host_calls::{Child, Ending, EnterFault, Host, HostFault, Name, StartFault, Text};
use std::alloc::{AllocError, Global};
use std::fs::File;
use std::process::Processes;
use std::rt::Runtime;
use witnessed_host::FaultCounts;

/// A spool directory on a disk, its lock and the children that were started from it.
#[derive(Drop)]
pub struct UnixHost<R: Runtime<File = File> + Processes> {
    pub(crate) rt: R,
    pub(crate) spool: Text,
    pub(crate) absent: Absent,
    pub(crate) naming: Naming,
    pub(crate) waits: Waits,
    pub(crate) head: usize,
    pub(crate) directory: Option<LockedDirectory>,
    pub(crate) kids: Vec<ChildProcess<R>>,
    pub(crate) counts: FaultCounts,
}

impl<R: Runtime<File = File> + Processes> Host for UnixHost<R> {
    ghost tells = { false };

    ghost alone = { false };

    ghost session = { unix_session };

    // It exposes nothing, and no clause says anything of this.
    ghost world = { λ _. empty_world };

    fn enter(&mut self, alloc: Global) -> Result<(), EnterFault>
        requires { IsOutside (unix_session self.old) }
        ensures enters { Enters (unix_session self.old) (unix_session self.new) result }
        ensures taken { IsErrOf result EnterFault.Taken
            → Rose (unix_session self.old).taken (unix_session self.new).taken }
        ensures failed { IsErrOf result EnterFault.Failed
            → Rose (unix_session self.old).file_faults (unix_session self.new).file_faults }
        ensures counts { CountsEnters (unix_session self.old) (unix_session self.new) result }
        ensures known { OnOk result (unsynced_of self.new ≡ known_unsynced self.new) }
        ensures unlisted { OnOk result (listed_names self.new ≡ None) }
    {
        let entered = LockedDirectory::enter(
            &self.rt,
            alloc,
            self.spool.as_str(),
            self.absent,
            self.naming,
            self.waits,
        );
        match entered {
            Ok(directory) => {
                self.directory = Some(directory);
                Ok(())
            }
            Err(fault) => self.counts.enter_call(Err(fault)),
        }
    }

    fn leave(&mut self)
        requires { IsInside (unix_session self.old) }
        ensures left { IsLeft (unix_session self.old) (unix_session self.new) }
        ensures counts { CountsNothing (unix_session self.old) (unix_session self.new) }
    {
        if let Some(directory) = self.directory.take() {
            directory.leave();
        }
    }

    fn names(&mut self, alloc: Global) -> Result<Vec<Name>, HostFault>
        requires { IsInside (unix_session self.old) }
        ensures inside { CallsInside HostFault.Failed (unix_session self.old) (unix_session self.new) result }
        ensures counts { CountsFiles (unix_session self.old) (unix_session self.new) result }
        ensures order { IfOk result (λ names. IsSorted name_cmp names.items) }
        ensures kept { IfOk result (λ names. IfSome (listed_names self.old) (λ kept. names.items ≡ kept)) }
        ensures keeps { IfOk result (λ names. listed_names self.new ≡ Some names.items) }
    {
        let directory = self.directory.as_mut().unwrap();
        let answer = directory.names(&self.rt, alloc, self.head);
        finish(directory, &mut self.counts, answer)
    }

    fn length(&mut self, alloc: Global, name: &Name) -> Result<u64, HostFault>
        requires { IsInside (unix_session self.old) }
        ensures inside { CallsInside HostFault.Failed (unix_session self.old) (unix_session self.new) result }
        ensures counts { CountsFiles (unix_session self.old) (unix_session self.new) result }
    {
        let directory = self.directory.as_mut().unwrap();
        let answer = read_file::length(directory, &self.rt, alloc, name);
        finish(directory, &mut self.counts, answer)
    }

    fn read(
        &mut self,
        alloc: Global,
        name: &Name,
        offset: u64,
        most: usize,
    ) -> Result<Vec<u8>, HostFault>
        requires { IsInside (unix_session self.old) }
        ensures inside { CallsInside HostFault.Failed (unix_session self.old) (unix_session self.new) result }
        ensures counts { CountsFiles (unix_session self.old) (unix_session self.new) result }
        ensures few { IfOk result (λ bytes. vec_len bytes ≤ most) }
    {
        let directory = self.directory.as_mut().unwrap();
        let answer = read_file::read_file(directory, &self.rt, alloc, name, offset, most);
        finish(directory, &mut self.counts, answer)
    }

    fn create(&mut self, alloc: Global, name: &Name, bytes: &[u8]) -> Result<(), HostFault>
        requires { IsInside (unix_session self.old) }
        ensures inside { CallsInside HostFault.Failed (unix_session self.old) (unix_session self.new) result }
        ensures counts { CountsFiles (unix_session self.old) (unix_session self.new) result }
        ensures unsynced { OnOk result (unsynced_of self.new ≡ Some Unsynced.Anything) }
        ensures torn { OnOk result (unsynced_of self.old ≢ Some Unsynced.Anything
            → torn_file self.new ≡ Some name.now) }
        ensures unlisted { OnOk result (listed_names self.new ≡ None) }
    {
        let directory = self.directory.as_mut().unwrap();
        let answer = directory.create(&self.rt, alloc, name, bytes);
        finish(directory, &mut self.counts, answer)
    }

    fn write(
        &mut self,
        alloc: Global,
        name: &Name,
        offset: u64,
        bytes: &[u8],
    ) -> Result<(), HostFault>
        requires { IsInside (unix_session self.old) }
        ensures inside { CallsInside HostFault.Failed (unix_session self.old) (unix_session self.new) result }
        ensures counts { CountsFiles (unix_session self.old) (unix_session self.new) result }
        ensures unsynced { OnOk result (unsynced_of self.new ≡ Some Unsynced.Anything) }
        ensures torn { OnOk result (unsynced_of self.old ≢ Some Unsynced.Anything
            → torn_file self.new ≡ Some name.now) }
        ensures unlisted { OnOk result (listed_names self.new ≡ None) }
    {
        let directory = self.directory.as_mut().unwrap();
        let answer = directory.write(&self.rt, alloc, name, offset, bytes);
        finish(directory, &mut self.counts, answer)
    }

    fn sync(&mut self, alloc: Global, name: &Name) -> Result<(), HostFault>
        requires { IsInside (unix_session self.old) }
        ensures inside { CallsInside HostFault.Failed (unix_session self.old) (unix_session self.new) result }
        ensures counts { CountsFiles (unix_session self.old) (unix_session self.new) result }
        ensures synced { OnOk result (torn_file self.old ≡ Some name.now
            → unsynced_of self.new ≢ Some Unsynced.Anything) }
    {
        let directory = self.directory.as_mut().unwrap();
        let answer = directory.sync(&self.rt, alloc, name);
        finish(directory, &mut self.counts, answer)
    }

    fn sync_names(&mut self, alloc: Global) -> Result<(), HostFault>
        requires { IsInside (unix_session self.old) }
        ensures inside { CallsInside HostFault.Failed (unix_session self.old) (unix_session self.new) result }
        ensures counts { CountsFiles (unix_session self.old) (unix_session self.new) result }
        ensures synced { OnOk result (unsynced_of self.new ≢ Some Unsynced.Names) }
    {
        let _ = alloc;
        let directory = self.directory.as_mut().unwrap();
        let answer = directory.sync_names(&self.rt);
        finish(directory, &mut self.counts, answer)
    }

    fn settle(&mut self, alloc: Global) -> Result<(), HostFault>
        requires { IsInside (unix_session self.old) }
        ensures inside { CallsInside HostFault.Failed (unix_session self.old) (unix_session self.new) result }
        ensures counts { CountsFiles (unix_session self.old) (unix_session self.new) result }
        ensures settled { OnOk result (unsynced_of self.new ≡ Some Unsynced.Nothing) }
    {
        let directory = self.directory.as_mut().unwrap();
        let answer = directory.settle(&self.rt, alloc);
        finish(directory, &mut self.counts, answer)
    }

    fn rename(&mut self, alloc: Global, from: &Name, to: &Name) -> Result<(), HostFault>
        requires { IsInside (unix_session self.old) }
        ensures inside { CallsInside HostFault.Failed (unix_session self.old) (unix_session self.new) result }
        ensures counts { CountsFiles (unix_session self.old) (unix_session self.new) result }
        ensures unsynced { OnOk result (unsynced_of self.new ≢ Some Unsynced.Nothing) }
        ensures unlisted { OnOk result (listed_names self.new ≡ None) }
    {
        let directory = self.directory.as_mut().unwrap();
        let answer = directory.rename(&self.rt, alloc, from, to);
        finish(directory, &mut self.counts, answer)
    }

    fn remove(&mut self, alloc: Global, name: &Name) -> Result<(), HostFault>
        requires { IsInside (unix_session self.old) }
        ensures inside { CallsInside HostFault.Failed (unix_session self.old) (unix_session self.new) result }
        ensures counts { CountsFiles (unix_session self.old) (unix_session self.new) result }
        ensures unsynced { OnOk result (unsynced_of self.new ≢ Some Unsynced.Nothing) }
        ensures unlisted { OnOk result (listed_names self.new ≡ None) }
    {
        let directory = self.directory.as_mut().unwrap();
        let answer = directory.remove(&self.rt, alloc, name);
        finish(directory, &mut self.counts, answer)
    }

    fn start(
        &mut self,
        alloc: Global,
        number: u32,
        name: &Name,
        nice: u8,
    ) -> Result<Child, StartFault>
        requires { IsInside (unix_session self.old) }
        ensures starts { Starts (unix_session self.old) (unix_session self.new) result }
        ensures cause { HasCause StartFault.Failed
            (unix_session self.old).start_faults (unix_session self.new).start_faults result }
        ensures counts { CountsStarts (unix_session self.old) (unix_session self.new) result }
        ensures started_as { IfOk result (λ child.
            slice_get (starts_of self.new) child.id ≡ Some (record { name = name.now; nice = nice })) }
    {
        // The name alone tells which job it is.
        let _ = number;
        let directory = self.directory.as_mut().unwrap();
        directory.close_written();
        // Room first, so that no child is lost that was started.
        if let Err(_) = self.kids.reserve(1) {
            return self.counts.start_call(Err(StartFault::Failed));
        }
        let started = job::start(
            &self.rt,
            alloc,
            directory.paths(),
            JobStart { name: *name, nice },
        );
        let kid = self.counts.start_call(started)?;
        let id = self.kids.as_slice().len() as u64;
        self.kids.push_reserved(kid);
        Ok(Child { id })
    }

    fn ended(&mut self, alloc: Global, child: &Child) -> Result<Option<Ending>, AllocError>
        requires inside { IsInside (unix_session self.old) }
        requires started { Contains (unix_session self.old).children child.now }
        ensures inside { StaysInside (unix_session self.old) (unix_session self.new) }
        ensures counts { CountsNothing (unix_session self.old) (unix_session self.new) }
        ensures was_started { result ≢ Ok (Some Ending.NotStarted) }
        ensures known { IfOk result (λ known. IsSome known → known ≡ ending_in self.new child.now.id) }
        ensures again { IfSome (ending_in self.old child.now.id) (λ ending. result ≡ Ok (Some ending)) }
    {
        let _ = alloc;
        let kid = &mut self.kids[child.id as usize];
        match kid.process.try_wait() {
            Ok(Some(status)) => Ok(Some(ending_of(status))),
            // A child that can't be asked counts as one that still runs.
            Ok(None) | Err(_) => Ok(None),
        }
    }
}
