//! A spool directory, its lock and the children that are started from it.
ghost use Rattle.std.specs.Prelude.{◌≡◌, ◌≢◌, ◌≤◌, Bool, Contains, IsTrue, IsSome, IsErrOf, IfOk, length, vec_len};
ghost use Rattle.std.specs.FinMap as map;
ghost use Rattle.host_calls.specs.Causes.{HasCause, Rose};
ghost use Rattle.host_calls.specs.Directory.{IsInNoImage, IsMade, IsMadeInPart, IsWritten, IsWrittenInPart, IsSynced, IsRenamed, IsRemoved, HasNamesSynced, IsSettled, IsSyncedInPart};
ghost use Rattle.host_calls.specs.Session.{CallsInside, Session, IsInside, IsOutside, StaysInside, Enters, IsLeft, Starts};
ghost use Rattle.host_calls.specs.World.{World, FileCall, StartCall, Asks, TimePasses, reading, size_of, bytes_from, IsWithinFile};

use crate::{Child, Ending, EnterFault, HostFault, Name, StartFault};
use std::alloc::{AllocError, Global};

/// One spool directory. The work between `enter` and `leave` is a session.
pub trait Host {
    /// Whether it exposes its files.
    ghost tells: { Bool };

    /// Whether nobody else changes the directory.
    ghost alone: { Bool };

    /// What every host reports.
    ghost session: { Self → Session };

    /// Each moment so far. It means something only where the host exposes its files.
    ghost world: { Self → World };

    /// Begins a session.
    fn enter(&mut self, alloc: Global) -> Result<(), EnterFault>
        requires { IsOutside (session self.old) }
        ensures enters { Enters (session self.old) (session self.new) result }
        ensures taken { IsErrOf result EnterFault.Taken → Rose (session self.old).taken (session self.new).taken }
        ensures failed { IsErrOf result EnterFault.Failed
            → Rose (session self.old).file_faults (session self.new).file_faults }
        ensures goes_on { IsTrue tells → TimePasses (world self.old) (world self.new) }
        ensures alone { IsTrue tells → IsTrue alone → world self.new ≡ world self.old };

    /// Ends the session.
    fn leave(&mut self)
        requires { IsInside (session self.old) }
        ensures left { IsLeft (session self.old) (session self.new) }
        ensures goes_on { IsTrue tells → TimePasses (world self.old) (world self.new) }
        ensures alone { IsTrue tells → IsTrue alone → world self.new ≡ world self.old };

    /// The names of the plain files, in byte order.
    fn names(&mut self, alloc: Global) -> Result<Vec<Name>, HostFault>
        requires { IsInside (session self.old) }
        ensures inside { CallsInside HostFault.Failed (session self.old) (session self.new) result }
        ensures looks { IsTrue tells → world self.new ≡ world self.old }
        ensures listed { IsTrue tells → IfOk result (λ names. names.items ≡ map.keys (reading (world self.old))) };

    /// The length of a file in bytes.
    fn length(&mut self, alloc: Global, name: &Name) -> Result<u64, HostFault>
        requires inside { IsInside (session self.old) }
        requires held { IsTrue tells → IsSome (map.get (reading (world self.old)) name.now) }
        ensures inside { CallsInside HostFault.Failed (session self.old) (session self.new) result }
        ensures looks { IsTrue tells → world self.new ≡ world self.old }
        ensures counted { IsTrue tells
            → IfOk result (λ count. size_of (reading (world self.old)) name.now ≡ Some count) };

    /// At most `most` bytes of a file from an offset on, fewer only at its end.
    fn read(
        &mut self,
        alloc: Global,
        name: &Name,
        offset: u64,
        most: usize,
    ) -> Result<Vec<u8>, HostFault>
        requires inside { IsInside (session self.old) }
        requires held { IsTrue tells → IsSome (map.get (reading (world self.old)) name.now) }
        ensures inside { CallsInside HostFault.Failed (session self.old) (session self.new) result }
        ensures looks { IsTrue tells → world self.new ≡ world self.old }
        ensures few { IfOk result (λ bytes. vec_len bytes ≤ most) }
        ensures bytes { IsTrue tells
            → IfOk result (λ bytes. bytes_from (reading (world self.old)) name.now offset most ≡ Some bytes.items) };

    /// Makes a file with these bytes. Neither its name nor its bytes are durable then.
    fn create(&mut self, alloc: Global, name: &Name, bytes: &[u8]) -> Result<(), HostFault>
        requires inside { IsInside (session self.old) }
        requires new_name { IsTrue tells → IsInNoImage (world self.old).now.directory name.now }
        ensures inside { CallsInside HostFault.Failed (session self.old) (session self.new) result }
        ensures files { IsTrue tells → FileCall (IsMade name.now bytes.now) (IsMadeInPart name.now bytes.now)
            (world self.old) (world self.new) result };

    /// Writes over a range of a file. The range is not synced then.
    fn write(
        &mut self,
        alloc: Global,
        name: &Name,
        offset: u64,
        bytes: &[u8],
    ) -> Result<(), HostFault>
        requires inside { IsInside (session self.old) }
        requires range { IsTrue tells
            → IsWithinFile (reading (world self.old)) name.now offset (length bytes.now) }
        ensures inside { CallsInside HostFault.Failed (session self.old) (session self.new) result }
        ensures files { IsTrue tells
            → FileCall (IsWritten name.now offset bytes.now) (IsWrittenInPart name.now offset bytes.now)
            (world self.old) (world self.new) result };

    /// Syncs a file.
    fn sync(&mut self, alloc: Global, name: &Name) -> Result<(), HostFault>
        requires inside { IsInside (session self.old) }
        requires held { IsTrue tells → IsSome (map.get (reading (world self.old)) name.now) }
        ensures inside { CallsInside HostFault.Failed (session self.old) (session self.new) result }
        ensures files { IsTrue tells
            → FileCall (IsSynced name.now) IsSyncedInPart (world self.old) (world self.new) result };

    /// Syncs the names.
    fn sync_names(&mut self, alloc: Global) -> Result<(), HostFault>
        requires { IsInside (session self.old) }
        ensures inside { CallsInside HostFault.Failed (session self.old) (session self.new) result }
        ensures files { IsTrue tells
            → FileCall HasNamesSynced IsSyncedInPart (world self.old) (world self.new) result };

    /// Syncs all of the directory, also what others left.
    fn settle(&mut self, alloc: Global) -> Result<(), HostFault>
        requires { IsInside (session self.old) }
        ensures inside { CallsInside HostFault.Failed (session self.old) (session self.new) result }
        ensures files { IsTrue tells → FileCall IsSettled IsSyncedInPart (world self.old) (world self.new) result };

    /// Moves a file to another name, and replaces what is there. The change is not durable then.
    fn rename(&mut self, alloc: Global, from: &Name, to: &Name) -> Result<(), HostFault>
        requires inside { IsInside (session self.old) }
        requires held { IsTrue tells → IsSome (map.get (reading (world self.old)) from.now) }
        ensures inside { CallsInside HostFault.Failed (session self.old) (session self.new) result }
        ensures files { IsTrue tells → FileCall (IsRenamed from.now to.now) (IsRenamed from.now to.now)
            (world self.old) (world self.new) result };

    /// Removes a file. The change is not durable then.
    fn remove(&mut self, alloc: Global, name: &Name) -> Result<(), HostFault>
        requires inside { IsInside (session self.old) }
        requires held { IsTrue tells → IsSome (map.get (reading (world self.old)) name.now) }
        ensures inside { CallsInside HostFault.Failed (session self.old) (session self.new) result }
        ensures files { IsTrue tells
            → FileCall (IsRemoved name.now) (IsRemoved name.now) (world self.old) (world self.new) result };

    /// Starts the script in the named file, under this number and niceness. Where no child could be
    /// started, it counts as started too.
    fn start(
        &mut self,
        alloc: Global,
        number: u32,
        name: &Name,
        nice: u8,
    ) -> Result<Child, StartFault>
        requires inside { IsInside (session self.old) }
        requires held { IsTrue tells → IsSome (map.get (reading (world self.old)) name.now) }
        ensures starts { Starts (session self.old) (session self.new) result }
        ensures cause { HasCause StartFault.Failed
            (session self.old).start_faults (session self.new).start_faults result }
        ensures handed { IsTrue tells → StartCall number name.now nice (world self.old) (world self.new) result };

    /// Asks, without waiting, whether a child has ended.
    fn ended(&mut self, alloc: Global, child: &Child) -> Result<Option<Ending>, AllocError>
        requires inside { IsInside (session self.old) }
        requires started { Contains (session self.old).children child.now }
        ensures inside { StaysInside (session self.old) (session self.new) }
        ensures was_started { result ≢ Ok (Some Ending.NotStarted) }
        ensures asked { IsTrue tells → Asks child.now (world self.old) (world self.new) result };
}
