//! Who is notified of each call on a directory.
ghost use Rattle.std.specs.Prelude.{◌≡◌, Bool, IsTrue, IsSome, IfOk, length};
ghost use Rattle.std.specs.Allocator.{alloc_error};
ghost use Rattle.std.specs.FinMap as map;
ghost use Rattle.host_calls.specs.Directory.{IsInNoImage, IsMade, IsMadeInPart, IsWritten, IsWrittenInPart, IsSynced, IsRenamed, IsRemoved, HasNamesSynced, IsSettled, IsSyncedInPart};
ghost use Rattle.host_calls.specs.World.{World, FileCall, StartCall, Asks, TimePasses, reading, size_of, bytes_from, IsWithinFile};
ghost use Rattle.witnessed_host.specs.PassedAnswers.{Passes};

use host_calls::{Child, Ending, EnterFault, HostFault, Name, StartFault};
use std::alloc::AllocError;

/// Who is notified of each call on a directory with its answer. He passes an answer on, or disputes it: the call has
/// failed then.
pub trait Witness {
    /// Whether he knows the files.
    ghost knows: { Bool };

    /// Whether he knows that nobody else changes them.
    ghost alone: { Bool };

    /// Each moment so far, as he knows it. It means something only where he knows the files.
    ghost world: { Self → World };

    /// A session was begun, or not.
    fn entered(&mut self, answer: Result<(), EnterFault>) -> Result<(), EnterFault>
        ensures passes { Passes EnterFault.Failed answer result }
        ensures goes_on { IsTrue knows → TimePasses (world self.old) (world self.new) }
        ensures alone { IsTrue knows → IsTrue alone → world self.new ≡ world self.old };

    /// The session was ended.
    fn left(&mut self)
        ensures goes_on { IsTrue knows → TimePasses (world self.old) (world self.new) }
        ensures alone { IsTrue knows → IsTrue alone → world self.new ≡ world self.old };

    /// The names of the plain files were requested.
    fn listed(&mut self, answer: Result<Vec<Name>, HostFault>) -> Result<Vec<Name>, HostFault>
        ensures passes { Passes HostFault.Failed answer result }
        ensures looks { IsTrue knows → world self.new ≡ world self.old }
        ensures listed { IsTrue knows → IfOk result (λ names. names.items ≡ map.keys (reading (world self.old))) };

    /// The length of a file was requested.
    fn measured(&mut self, name: &Name, answer: Result<u64, HostFault>) -> Result<u64, HostFault>
        requires held { IsTrue knows → IsSome (map.get (reading (world self.old)) name.now) }
        ensures passes { Passes HostFault.Failed answer result }
        ensures looks { IsTrue knows → world self.new ≡ world self.old }
        ensures counted { IsTrue knows
            → IfOk result (λ count. size_of (reading (world self.old)) name.now ≡ Some count) };

    /// At most `most` bytes of a file from an offset on were read.
    fn read(
        &mut self,
        name: &Name,
        offset: u64,
        most: usize,
        answer: Result<Vec<u8>, HostFault>,
    ) -> Result<Vec<u8>, HostFault>
        requires held { IsTrue knows → IsSome (map.get (reading (world self.old)) name.now) }
        ensures passes { Passes HostFault.Failed answer result }
        ensures looks { IsTrue knows → world self.new ≡ world self.old }
        ensures bytes { IsTrue knows
            → IfOk result (λ bytes. bytes_from (reading (world self.old)) name.now offset most ≡ Some bytes.items) };

    /// A file was made with these bytes.
    fn created(
        &mut self,
        name: &Name,
        bytes: &[u8],
        answer: Result<(), HostFault>,
    ) -> Result<(), HostFault>
        requires new_name { IsTrue knows → IsInNoImage (world self.old).now.directory name.now }
        ensures passes { Passes HostFault.Failed answer result }
        ensures files { IsTrue knows → FileCall (IsMade name.now bytes.now) (IsMadeInPart name.now bytes.now)
            (world self.old) (world self.new) result };

    /// A range of a file was written over.
    fn written(
        &mut self,
        name: &Name,
        offset: u64,
        bytes: &[u8],
        answer: Result<(), HostFault>,
    ) -> Result<(), HostFault>
        requires range { IsTrue knows
            → IsWithinFile (reading (world self.old)) name.now offset (length bytes.now) }
        ensures passes { Passes HostFault.Failed answer result }
        ensures files { IsTrue knows
            → FileCall (IsWritten name.now offset bytes.now) (IsWrittenInPart name.now offset bytes.now)
            (world self.old) (world self.new) result };

    /// The bytes of a file were synced.
    fn synced(&mut self, name: &Name, answer: Result<(), HostFault>) -> Result<(), HostFault>
        requires held { IsTrue knows → IsSome (map.get (reading (world self.old)) name.now) }
        ensures passes { Passes HostFault.Failed answer result }
        ensures files { IsTrue knows
            → FileCall (IsSynced name.now) IsSyncedInPart (world self.old) (world self.new) result };

    /// The names were synced.
    fn names_synced(&mut self, answer: Result<(), HostFault>) -> Result<(), HostFault>
        ensures passes { Passes HostFault.Failed answer result }
        ensures files { IsTrue knows
            → FileCall HasNamesSynced IsSyncedInPart (world self.old) (world self.new) result };

    /// All of the directory was synced.
    fn settled(&mut self, answer: Result<(), HostFault>) -> Result<(), HostFault>
        ensures passes { Passes HostFault.Failed answer result }
        ensures files { IsTrue knows → FileCall IsSettled IsSyncedInPart (world self.old) (world self.new) result };

    /// A file was moved to another name.
    fn renamed(
        &mut self,
        from: &Name,
        to: &Name,
        answer: Result<(), HostFault>,
    ) -> Result<(), HostFault>
        requires held { IsTrue knows → IsSome (map.get (reading (world self.old)) from.now) }
        ensures passes { Passes HostFault.Failed answer result }
        ensures files { IsTrue knows → FileCall (IsRenamed from.now to.now) (IsRenamed from.now to.now)
            (world self.old) (world self.new) result };

    /// A file was removed.
    fn removed(&mut self, name: &Name, answer: Result<(), HostFault>) -> Result<(), HostFault>
        requires held { IsTrue knows → IsSome (map.get (reading (world self.old)) name.now) }
        ensures passes { Passes HostFault.Failed answer result }
        ensures files { IsTrue knows
            → FileCall (IsRemoved name.now) (IsRemoved name.now) (world self.old) (world self.new) result };

    /// The script in the named file was started. That can't be disputed, since a child may run.
    fn started(&mut self, number: u32, name: &Name, nice: u8, answer: &Result<Child, StartFault>)
        requires held { IsTrue knows → IsSome (map.get (reading (world self.old)) name.now) }
        ensures handed { IsTrue knows
            → StartCall number name.now nice (world self.old) (world self.new) answer.now };

    /// A child was asked whether it has ended. A dispute counts as an out-of-memory error, the one fault of this
    /// call.
    fn asked(
        &mut self,
        child: &Child,
        answer: Result<Option<Ending>, AllocError>,
    ) -> Result<Option<Ending>, AllocError>
        ensures passes { Passes alloc_error answer result }
        ensures asked { IsTrue knows → Asks child.now (world self.old) (world self.new) result };
}
