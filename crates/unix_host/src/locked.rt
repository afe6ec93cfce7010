//! A spool directory under its lock. Whatever changes the directory is here, and so does all that syncs it.
//!
//! A change is made only once the byte of the lock says at least what may be unsynced after it, since its
//! program may be killed at any moment. What may be unsynced is forgotten after the sync of it alone.
ghost use Rattle.std.specs.Prelude.{◌≡◌, ◌≢◌, ◌≤◌, Contains, IsSorted, IsTrue, IfOk, IfSome, OnOk, OnErr, None, Some, true, false, length, option_map, string_bytes, vec_len};
ghost use Rattle.host_calls.specs.Directory.{name_cmp};
ghost use Rattle.unix_host.specs.Listings.{count_from, listed_bytes, names_in};
ghost use Rattle.unix_host.specs.Unsynced.{unsynced_by};
ghost use Rattle.unix_host.specs.inside.Changes.{unsynced_left_by, Remembers};
ghost use Rattle.unix_host.specs.inside.LockByte.{amount_of};
ghost use Rattle.unix_host.specs.inside.Paths.{file_in};
ghost use Rattle.unix_host.specs.inside.Torn.{may_tear, HasTorn, HasWhole};

use crate::absent::Absent;
use crate::changes::Changes;
use crate::listed_files::Listed;
use crate::listing::Listing;
use crate::lock::Lock;
use crate::naming::Naming;
use crate::paths::Paths;
use crate::synced::{WrittenFile, sync_path};
use crate::torn::Torn;
use crate::unsynced::Unsynced;
use crate::waits::{Waiting, Waits};
use crate::{file_calls, file_syncs, files};
use host_calls::{EnterFault, HostFault, Name};
use std::alloc::Global;
use std::env::Env;
use std::fs::{File, Files};
use std::rt::Runtime;
use std::time::Clock;

// How often a session enters anew that finds another directory, or another lock, by the time it has the locks.
const ENTRIES: u32 = 100;

/// A spool directory, its lock, and what of the directory may be unsynced.
#[derive(Drop)]
pub struct LockedDirectory {
    pub(crate) paths: Paths,
    lock: Lock,
    changes: Changes,
    pub(crate) listing: Option<Listing>,
    // What was written to last, until it is synced: the sync then needs no second open, which could fail.
    written: Option<WrittenFile>,
    ghost known: { amount_of (unsynced_by changes) ≤ amount_of lock.known },
}

impl LockedDirectory {
    /// Takes the locks of the directory, which is made where it is absent, unless that is to be a fault. It is entered anew
    /// where its path names another one by the time they are had, as where it was replaced meanwhile.
    pub fn enter<R: Files<File = File> + Env + Clock + Eprint>(
        rt: &R,
        alloc: Global,
        spool: &str,
        absent: Absent,
        naming: Naming,
        waits: Waits,
    ) -> Result<LockedDirectory, EnterFault>
        ensures known { IfOk result (λ directory. unsynced_by directory.changes ≡ directory.lock.known) }
        ensures left { IfOk result (λ directory. unsynced_left_by directory.changes ≡ directory.lock.known) }
        ensures unlisted { IfOk result (λ directory. directory.listing ≡ None) }
    {
        let mut waiting = Waiting::begun(waits);
        for _ in 0..ENTRIES {
            let paths = files::enter_directory(rt, alloc, spool, absent, naming)?;
            if let Some(lock) = Lock::take(rt, &paths, &mut waiting)? {
                return Ok(LockedDirectory::locked(paths, lock));
            }
        }
        Err(EnterFault::Taken)
    }

    // The directory as a session finds it that has just taken its locks.
    fn locked(paths: Paths, lock: Lock) -> LockedDirectory
        ensures known { unsynced_by result.changes ≡ result.lock.known }
        ensures left { unsynced_left_by result.changes ≡ result.lock.known }
        ensures unlisted { result.listing ≡ None }
    {
        let changes = Changes::after(&lock);
        LockedDirectory {
            paths,
            lock,
            changes,
            listing: None,
            written: None,
        }
    }

    /// Tells the next session what is left, and lets the lock go.
    pub fn leave(self) {
        let LockedDirectory {
            paths: _,
            lock,
            changes,
            listing: _,
            written: _,
        } = self;
        lock.release(&changes);
    }

    /// Where it lies.
    pub fn paths(&self) -> &Paths
        ensures { result.now ≡ self.now.paths }
    {
        &self.paths
    }

    /// A call failed: the next session is to sync all.
    pub fn fail(&mut self)
        ensures changes { self.new.changes ≡ record self.old.changes { has_failed = true } }
        ensures listing { self.new.listing ≡ self.old.listing }
    {
        self.changes = self.changes.failed();
    }

    /// Makes a file that was not there.
    pub fn create<R: Files<File = File>>(
        &mut self,
        rt: &R,
        alloc: Global,
        name: &Name,
        bytes: &[u8],
    ) -> Result<(), HostFault>
        ensures names { OnOk result (IsTrue self.new.changes.names) }
        ensures torn { OnOk result (HasTorn name.now self.old.changes.torn self.new.changes.torn) }
        ensures unsynced { OnOk result (unsynced_by self.new.changes ≡ Unsynced.Anything) }
        ensures remembers { Remembers self.old.changes self.new.changes }
        ensures unlisted { OnOk result (self.new.listing ≡ None) }
    {
        let path = self.paths.file(alloc, name)?;
        let next = self.changes.made(name);
        self.prepare(next)?;
        file_calls::create_file(self, rt, path.as_str(), name, bytes)
    }

    /// Writes over a range of a file.
    pub fn write<R: Files<File = File>>(
        &mut self,
        rt: &R,
        alloc: Global,
        name: &Name,
        offset: u64,
        bytes: &[u8],
    ) -> Result<(), HostFault>
        ensures torn { OnOk result (HasTorn name.now self.old.changes.torn self.new.changes.torn) }
        ensures unsynced { OnOk result (unsynced_by self.new.changes ≡ Unsynced.Anything) }
        ensures remembers { Remembers self.old.changes self.new.changes }
        ensures unlisted { OnOk result (self.new.listing ≡ None) }
    {
        let path = self.paths.file(alloc, name)?;
        let next = self.changes.written(name);
        self.prepare(next)?;
        let file = WrittenFile::open(rt, path)?;
        file_calls::write_range(self, &file, name, offset, bytes)?;
        self.written = Some(file);
        Ok(())
    }

    /// Closes the file that was written to last.
    pub fn close_written(&mut self)
        ensures { self.new ≡ record self.old { written = None } }
    {
        drop(self.written.take());
    }

    /// Moves a file to another name, and replaces what is there.
    pub fn rename<R: Files>(
        &mut self,
        rt: &R,
        alloc: Global,
        from: &Name,
        to: &Name,
    ) -> Result<(), HostFault>
        ensures names { OnOk result (IsTrue self.new.changes.names) }
        ensures remembers { Remembers self.old.changes self.new.changes }
        ensures unlisted { OnOk result (self.new.listing ≡ None) }
        ensures unsynced { OnOk result (unsynced_by self.new.changes ≢ Unsynced.Nothing) }
    {
        let source = self.paths.file(alloc, from)?;
        let target = self.paths.file(alloc, to)?;
        let next = self.changes.moved(from);
        self.prepare(next)?;
        file_calls::move_name(self, rt, source.as_str(), target.as_str(), from, to)
    }

    /// Removes a file.
    pub fn remove<R: Files>(&mut self, rt: &R, alloc: Global, name: &Name) -> Result<(), HostFault>
        ensures names { OnOk result (IsTrue self.new.changes.names) }
        ensures remembers { Remembers self.old.changes self.new.changes }
        ensures unlisted { OnOk result (self.new.listing ≡ None) }
        ensures unsynced { OnOk result (unsynced_by self.new.changes ≢ Unsynced.Nothing) }
    {
        let path = self.paths.file(alloc, name)?;
        let next = self.changes.removed();
        self.prepare(next)?;
        file_calls::remove_name(self, rt, path.as_str(), name)
    }

    /// Syncs a file.
    pub fn sync<R: Files<File = File>>(
        &mut self,
        rt: &R,
        alloc: Global,
        name: &Name,
    ) -> Result<(), HostFault>
        ensures ok { OnOk result (HasWhole name.now self.old.changes.torn self.new.changes.torn) }
        ensures err { OnErr result (self.new.changes ≡ self.old.changes) }
        ensures names { self.new.changes.names ≡ self.old.changes.names }
        ensures failed { self.new.changes.has_failed ≡ self.old.changes.has_failed }
    {
        let path = self.paths.file(alloc, name)?;
        let written = self.written.take();
        let file = file_syncs::sync_written(rt, &written, path.as_str())?;
        self.changes = self.changes.synced(&self.paths, name, file);
        Ok(())
    }

    /// Syncs the names.
    pub fn sync_names<R: Files<File = File>>(&mut self, rt: &R) -> Result<(), HostFault>
        ensures ok { OnOk result (self.new.changes ≡ record self.old.changes { names = false }) }
        ensures synced { OnOk result (unsynced_by self.new.changes ≢ Unsynced.Names) }
        ensures err { OnErr result (self.new.changes ≡ self.old.changes) }
    {
        let directory = sync_path(rt, self.paths.directory())?;
        self.changes = self.changes.names_synced(&self.paths, directory);
        Ok(())
    }

    /// Syncs all that may be unsynced.
    pub fn settle<R: Runtime<File = File>>(
        &mut self,
        rt: &R,
        alloc: Global,
    ) -> Result<(), HostFault>
        ensures settled { OnOk result (unsynced_by self.new.changes ≡ Unsynced.Nothing) }
        ensures failed { self.new.changes.has_failed ≡ self.old.changes.has_failed }
    {
        match self.changes.left() {
            Unsynced::Nothing => Ok(()),
            Unsynced::Names => self.sync_names(rt),
            Unsynced::Anything => {
                self.sync_files(rt, alloc)?;
                self.sync_names(rt)
            }
        }
    }

    // Syncs each file, and the name of the directory itself.
    fn sync_files<R: Runtime<File = File>>(
        &mut self,
        rt: &R,
        alloc: Global,
    ) -> Result<(), HostFault>
        ensures torn { OnOk result (self.new.changes.torn ≡ Torn.Nobody) }
        ensures failed { self.new.changes.has_failed ≡ self.old.changes.has_failed }
    {
        let names = self.names(rt, alloc, 0)?;
        let files = file_syncs::sync_each_file(rt, alloc, &self.paths, &names)?;
        // The directory may be as new as a lock file that says nothing.
        let parent = sync_path(rt, self.paths.parent())?;
        self.changes = self.changes.all_synced(&self.listing, files, parent);
        Ok(())
    }

    // Before a change: what was listed holds no longer, no file stays open that may get another name, and a program that is killed after it leaves a byte that says
    // enough.
    fn prepare(&mut self, next: Changes) -> Result<(), HostFault>
        ensures paths { self.new.paths ≡ self.old.paths }
        ensures ok { OnOk result (self.new.changes ≡ next) }
        ensures err { OnErr result (self.new.changes ≡ self.old.changes) }
        ensures known { OnOk result (amount_of (unsynced_left_by self.new.changes) ≤ amount_of self.new.lock.known) }
        ensures unlisted { self.new.listing ≡ None }
        ensures closed { self.new.written ≡ None }
    {
        self.listing = None;
        self.written = None;
        self.lock.raise(&next)?;
        self.changes = next;
        Ok(())
    }
}
