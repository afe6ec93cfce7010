//! A host that notes how much is read of the files of jobs.
ghost use Rattle.std.specs.Prelude.{◌≡◌, true};
ghost use Rattle.memory_host.specs.Host.{memory_session, memory_world};

use host_calls::{Child, Ending, EnterFault, Host, HostFault, Name, StartFault};
use memory_host::MemoryHost;
use std::alloc::{AllocError, Global};

// A host in memory, how often a file of a job was read, and the most bytes that one read requested.
#[derive(Drop)]
pub(crate) struct NotingHost {
    pub(crate) host: MemoryHost,
    pub(crate) reads: u32,
    pub(crate) most: usize,
}

impl NotingHost {
    // The names of all other files begin with a dot.
    fn note(&mut self, name: &Name, most: usize)
        ensures { self.new.host ≡ self.old.host }
    {
        if name.as_bytes().first() != Some(&b'.') {
            self.reads = self.reads.saturating_add(1);
            self.most = self.most.max(most);
        }
    }
}

impl Host for NotingHost {
    ghost tells = { true };

    ghost alone = { true };

    ghost session = { λ noting. memory_session noting.host };

    ghost world = { λ noting. memory_world noting.host };

    fn enter(&mut self, alloc: Global) -> Result<(), EnterFault> {
        self.host.enter(alloc)
    }

    fn leave(&mut self) {
        self.host.leave();
    }

    fn names(&mut self, alloc: Global) -> Result<Vec<Name>, HostFault> {
        self.host.names(alloc)
    }

    fn length(&mut self, alloc: Global, name: &Name) -> Result<u64, HostFault> {
        self.host.length(alloc, name)
    }

    fn read(
        &mut self,
        alloc: Global,
        name: &Name,
        offset: u64,
        most: usize,
    ) -> Result<Vec<u8>, HostFault> {
        self.note(name, most);
        self.host.read(alloc, name, offset, most)
    }

    fn create(&mut self, alloc: Global, name: &Name, bytes: &[u8]) -> Result<(), HostFault> {
        self.host.create(alloc, name, bytes)
    }

    fn write(
        &mut self,
        alloc: Global,
        name: &Name,
        offset: u64,
        bytes: &[u8],
    ) -> Result<(), HostFault> {
        self.host.write(alloc, name, offset, bytes)
    }

    fn sync(&mut self, alloc: Global, name: &Name) -> Result<(), HostFault> {
        self.host.sync(alloc, name)
    }

    fn sync_names(&mut self, alloc: Global) -> Result<(), HostFault> {
        self.host.sync_names(alloc)
    }

    fn settle(&mut self, alloc: Global) -> Result<(), HostFault> {
        self.host.settle(alloc)
    }

    fn rename(&mut self, alloc: Global, from: &Name, to: &Name) -> Result<(), HostFault> {
        self.host.rename(alloc, from, to)
    }

    fn remove(&mut self, alloc: Global, name: &Name) -> Result<(), HostFault> {
        self.host.remove(alloc, name)
    }

    fn start(
        &mut self,
        alloc: Global,
        number: u32,
        name: &Name,
        nice: u8,
    ) -> Result<Child, StartFault> {
        self.host.start(alloc, number, name, nice)
    }

    fn ended(&mut self, alloc: Global, child: &Child) -> Result<Option<Ending>, AllocError> {
        self.host.ended(alloc, child)
    }
}
