//! The host in memory as a host.
ghost use Rattle.std.specs.Prelude.{◌≡◌, ◌≢◌, true, Err, None, Ok, Some, ◌<◌, ◌≤◌, ◌-◌, ◌==◌, Contains, IfOk, IsErrOf, IsSome, alloc_error, length, slice_index_or, slice_set, vec_len, take, drop, if◌then◌else◌};
ghost use Rattle.std.specs.FinMap as map;
ghost use Rattle.host_calls.specs.Causes.{Rose};
ghost use Rattle.host_calls.specs.Directory.{HasNamesSynced, IsInNoImage, IsMade, IsMadeInPart, IsRemoved, IsRenamed, IsSettled, IsSynced, IsSyncedInPart, IsWritten, IsWrittenInPart};
ghost use Rattle.host_calls.specs.Session.{Enters, IsInside, IsLeft, IsOutside, StaysInside};
ghost use Rattle.host_calls.specs.World.{Asks, IsWithinFile, bytes_from, reading, size_of};
ghost use Rattle.memory_host.specs.Host.{memory_session, memory_world, progress_of};
ghost use Rattle.memory_host.specs.Plan.{next_entry, progress_after_call};
ghost use Rattle.memory_host.specs.Planned.{ChangesAsPlanned, IsCallCounted, LooksAsPlanned, StartsAsPlanned};

use crate::{MemoryHost, Part};
use host_calls::{Asked, Child, Ending, EnterFault, Host, HostFault, Name, StartFault};
use std::alloc::{AllocError, Global};

impl Host for MemoryHost {
    ghost tells = { true };

    ghost alone = { true };

    ghost session = { memory_session };

    ghost world = { memory_world };

    fn enter(&mut self, _alloc: Global) -> Result<(), EnterFault>
        requires { IsOutside (memory_session self.old) }
        ensures enters { Enters (memory_session self.old) (memory_session self.new) result }
        ensures taken { IsErrOf result EnterFault.Taken
            → Rose (memory_session self.old).taken (memory_session self.new).taken }
        ensures failed { IsErrOf result EnterFault.Failed
            → Rose (memory_session self.old).file_faults (memory_session self.new).file_faults }
        ensures world { memory_world self.new ≡ memory_world self.old }
        ensures planned { result ≡ next_entry (progress_of self.old) }
        ensures counted { progress_of self.new ≡ progress_after_call (progress_of self.old) }
    {
        let is_taken = self.finds_taken();
        let fails = self.next_part().is_some();
        self.turn = self.turn.next();
        if is_taken {
            self.taken = self.taken.saturating_add(1);
            return Err(EnterFault::Taken);
        }
        if fails {
            self.file_faults = self.file_faults.saturating_add(1);
            return Err(EnterFault::Failed);
        }
        self.is_inside = true;
        Ok(())
    }

    fn leave(&mut self)
        requires { IsInside (memory_session self.old) }
        ensures left { IsLeft (memory_session self.old) (memory_session self.new) }
        ensures world { memory_world self.new ≡ memory_world self.old }
        ensures uncounted { progress_of self.new ≡ progress_of self.old }
    {
        self.is_inside = false;
    }

    fn names(&mut self, alloc: Global) -> Result<Vec<Name>, HostFault>
        requires { IsInside (memory_session self.old) }
        ensures looks { LooksAsPlanned self.old self.new result }
        ensures listed { IfOk result (λ names. names.items ≡ map.keys (reading (memory_world self.old))) }
    {
        if self.next_part().is_some() {
            return self.fail();
        }
        let names = self.past.names(alloc)?;
        self.pass(names)
    }

    fn length(&mut self, _alloc: Global, name: &Name) -> Result<u64, HostFault>
        requires inside { IsInside (memory_session self.old) }
        requires held { IsSome (map.get (reading (memory_world self.old)) name.now) }
        ensures looks { LooksAsPlanned self.old self.new result }
        ensures counted { IfOk result (λ count. size_of (reading (memory_world self.old)) name.now ≡ Some count) }
    {
        if self.next_part().is_some() {
            return self.fail();
        }
        let count = self.past.bytes(name).len() as u64;
        self.pass(count)
    }

    fn read(
        &mut self,
        alloc: Global,
        name: &Name,
        offset: u64,
        most: usize,
    ) -> Result<Vec<u8>, HostFault>
        requires inside { IsInside (memory_session self.old) }
        requires held { IsSome (map.get (reading (memory_world self.old)) name.now) }
        ensures looks { LooksAsPlanned self.old self.new result }
        ensures few { IfOk result (λ bytes. vec_len bytes ≤ most) }
        ensures bytes { IfOk result (λ bytes.
            bytes_from (reading (memory_world self.old)) name.now offset most ≡ Some bytes.items) }
    {
        if self.next_part().is_some() {
            return self.fail();
        }
        let read = copy_from(alloc, self.past.bytes(name), offset, most)?;
        self.pass(read)
    }

    fn create(&mut self, alloc: Global, name: &Name, bytes: &[u8]) -> Result<(), HostFault>
        requires inside { IsInside (memory_session self.old) }
        requires new_name { IsInNoImage (memory_world self.old).now.directory name.now }
        ensures { ChangesAsPlanned (IsMade name.now bytes.now) (IsMadeInPart name.now bytes.now)
            self.old self.new result }
    {
        let part = self.next_part();
        if part == Some(Part::Nothing) {
            return self.fail();
        }
        self.past.create(alloc, name, bytes)?;
        self.finish(part)
    }

    fn write(
        &mut self,
        alloc: Global,
        name: &Name,
        offset: u64,
        bytes: &[u8],
    ) -> Result<(), HostFault>
        requires inside { IsInside (memory_session self.old) }
        requires range { IsWithinFile (reading (memory_world self.old)) name.now offset (length bytes.now) }
        ensures { ChangesAsPlanned (IsWritten name.now offset bytes.now) (IsWrittenInPart name.now offset bytes.now)
            self.old self.new result }
    {
        let part = self.next_part();
        if part == Some(Part::Nothing) {
            return self.fail();
        }
        self.past.write(alloc, name, offset, bytes)?;
        self.finish(part)
    }

    fn sync(&mut self, _alloc: Global, name: &Name) -> Result<(), HostFault>
        requires inside { IsInside (memory_session self.old) }
        requires held { IsSome (map.get (reading (memory_world self.old)) name.now) }
        ensures { ChangesAsPlanned (IsSynced name.now) IsSyncedInPart self.old self.new result }
    {
        let part = self.next_part();
        if part == Some(Part::Nothing) {
            return self.fail();
        }
        self.past.sync(name)?;
        self.finish(part)
    }

    fn sync_names(&mut self, _alloc: Global) -> Result<(), HostFault>
        requires { IsInside (memory_session self.old) }
        ensures { ChangesAsPlanned HasNamesSynced IsSyncedInPart self.old self.new result }
    {
        // The names alone become durable, and no byte.
        let part = self.next_part();
        if part == Some(Part::Nothing) {
            return self.fail();
        }
        self.past.sync_names()?;
        self.finish(part)
    }

    fn settle(&mut self, _alloc: Global) -> Result<(), HostFault>
        requires { IsInside (memory_session self.old) }
        ensures { ChangesAsPlanned IsSettled IsSyncedInPart self.old self.new result }
    {
        let part = self.next_part();
        if part == Some(Part::Nothing) {
            return self.fail();
        }
        self.past.settle()?;
        self.finish(part)
    }

    fn rename(&mut self, _alloc: Global, from: &Name, to: &Name) -> Result<(), HostFault>
        requires inside { IsInside (memory_session self.old) }
        requires held { IsSome (map.get (reading (memory_world self.old)) from.now) }
        ensures { ChangesAsPlanned (IsRenamed from.now to.now) (IsRenamed from.now to.now) self.old self.new result }
    {
        let part = self.next_part();
        if part == Some(Part::Nothing) {
            return self.fail();
        }
        self.past.rename(from, to)?;
        self.finish(part)
    }

    fn remove(&mut self, _alloc: Global, name: &Name) -> Result<(), HostFault>
        requires inside { IsInside (memory_session self.old) }
        requires held { IsSome (map.get (reading (memory_world self.old)) name.now) }
        ensures { ChangesAsPlanned (IsRemoved name.now) (IsRemoved name.now) self.old self.new result }
    {
        let part = self.next_part();
        if part == Some(Part::Nothing) {
            return self.fail();
        }
        self.past.remove(name)?;
        self.finish(part)
    }

    fn start(
        &mut self,
        alloc: Global,
        number: u32,
        name: &Name,
        nice: u8,
    ) -> Result<Child, StartFault>
        requires inside { IsInside (memory_session self.old) }
        requires held { IsSome (map.get (reading (memory_world self.old)) name.now) }
        ensures { StartsAsPlanned number name.now nice self.old self.new result }
    {
        let id = self.next_start();
        let fails = self.next_start_fails();
        let asks = self.plan.children.plan(id).asks;
        self.children.reserve(1)?;
        self.waits.reserve(1)?;
        self.past.hand_over(alloc, number, name, nice, !fails)?;
        self.turn = self.turn.next();
        self.waits.push_reserved(asks);
        if fails {
            self.start_faults = self.start_faults.saturating_add(1);
            return Err(StartFault::Failed);
        }
        let child = Child { id };
        self.children.push_reserved(child);
        Ok(child)
    }

    fn ended(&mut self, _alloc: Global, child: &Child) -> Result<Option<Ending>, AllocError>
        requires inside { IsInside (memory_session self.old) }
        requires started { Contains (memory_session self.old).children child.now }
        ensures inside { StaysInside (memory_session self.old) (memory_session self.new) }
        ensures was_started { result ≢ Ok (Some Ending.NotStarted) }
        ensures asked { Asks child.now (memory_world self.old) (memory_world self.new) result }
        ensures count { IsCallCounted alloc_error self.old self.new result }
    {
        self.asked.reserve(1)?;
        self.turn = self.turn.next();
        let ending = self.plan.children.plan(child.id).ending;
        let answer = ask(&mut self.waits, child.id as usize, ending);
        self.asked.push_reserved(Asked {
            child: *child,
            answer,
        });
        Ok(answer)
    }
}

// The answer of a child that ends so. This question counts.
fn ask(waits: &mut Vec<u32>, child: usize, ending: Ending) -> Option<Ending>
    requires { child < length waits.old.items }
    ensures answer { result ≡ (if slice_index_or waits.old.items child 0 == 0 then Some ending else None) }
    ensures counted { waits.new.items ≡ slice_set waits.old.items child (slice_index_or waits.old.items child 0 - 1) }
{
    let wait = waits[child];
    waits[child] = wait.saturating_sub(1);
    if wait == 0 { Some(ending) } else { None }
}

// A copy of at most `most` bytes from the offset on.
fn copy_from(alloc: Global, bytes: &[u8], offset: u64, most: usize) -> Result<Vec<u8>, AllocError>
    ensures few { IfOk result (λ copy. vec_len copy ≤ most) }
    ensures copy { IfOk result (λ copy. copy.items ≡ take most (drop offset bytes.now)) }
{
    if offset >= bytes.len() as u64 {
        return Ok(Vec::new(alloc));
    }
    let rest = &bytes[offset as usize..];
    if most >= rest.len() {
        return Vec::from_slice(alloc, rest);
    }
    Vec::from_slice(alloc, &rest[..most])
}
