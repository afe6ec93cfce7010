//! A host next to a witness.
ghost use Rattle.std.specs.Prelude.{◌≡◌};

use crate::counts::FaultCounts;
use crate::{Unmodelled, Witness};
use host_calls::{Child, Ending, EnterFault, Host, HostFault, Name, StartFault};
use std::alloc::{AllocError, Global};

/// A host that exposes nothing of its files, next to a witness who is notified of each call with its answer. The two
/// of them report what he knows. A dispute counts as a fault of the host.
#[derive(Drop)]
pub struct Witnessed<H: Unmodelled + Drop, W: Witness + Drop> {
    host: H,
    witness: W,
    counts: FaultCounts,
}

impl<H: Unmodelled + Drop, W: Witness + Drop> Witnessed<H, W> {
    /// The host next to the witness. Nothing was counted so far.
    pub fn new(host: H, witness: W) -> Witnessed<H, W>
        ensures host { result.host ≡ host }
        ensures witness { result.witness ≡ witness }
        ensures counts { result.counts ≡ record { files = 0; starts = 0; taken = 0 } }
    {
        Witnessed {
            host,
            witness,
            counts: FaultCounts {
                files: 0,
                starts: 0,
                taken: 0,
            },
        }
    }

    /// The witness.
    pub fn witness(&self) -> &W
        ensures { result.now ≡ self.now.witness }
    {
        &self.witness
    }
}

impl<H: Unmodelled + Drop, W: Witness + Drop> Host for Witnessed<H, W> {
    ghost use Rattle.witnessed_host.specs.Counted.{counted_session};

    ghost tells = { W.knows };

    ghost alone = { W.alone };

    ghost session = { λ own. counted_session (H.Host.session own.host) own.counts };

    ghost world = { λ own. W.world own.witness };

    fn enter(&mut self, alloc: Global) -> Result<(), EnterFault> {
        let answer = self.host.enter(alloc);
        let passed = self.witness.entered(answer);
        // A session that is disputed is over.
        if answer.is_ok() && passed.is_err() {
            self.host.leave();
        }
        self.counts.enter_call(passed)
    }

    fn leave(&mut self) {
        self.host.leave();
        self.witness.left();
    }

    fn names(&mut self, alloc: Global) -> Result<Vec<Name>, HostFault> {
        let answer = self.host.names(alloc);
        self.counts.file_call(self.witness.listed(answer))
    }

    fn length(&mut self, alloc: Global, name: &Name) -> Result<u64, HostFault> {
        let answer = self.host.length(alloc, name);
        self.counts.file_call(self.witness.measured(name, answer))
    }

    fn read(
        &mut self,
        alloc: Global,
        name: &Name,
        offset: u64,
        most: usize,
    ) -> Result<Vec<u8>, HostFault> {
        let answer = self.host.read(alloc, name, offset, most);
        self.counts
            .file_call(self.witness.read(name, offset, most, answer))
    }

    fn create(&mut self, alloc: Global, name: &Name, bytes: &[u8]) -> Result<(), HostFault> {
        let answer = self.host.create(alloc, name, bytes);
        self.counts
            .file_call(self.witness.created(name, bytes, answer))
    }

    fn write(
        &mut self,
        alloc: Global,
        name: &Name,
        offset: u64,
        bytes: &[u8],
    ) -> Result<(), HostFault> {
        let answer = self.host.write(alloc, name, offset, bytes);
        self.counts
            .file_call(self.witness.written(name, offset, bytes, answer))
    }

    fn sync(&mut self, alloc: Global, name: &Name) -> Result<(), HostFault> {
        let answer = self.host.sync(alloc, name);
        self.counts.file_call(self.witness.synced(name, answer))
    }

    fn sync_names(&mut self, alloc: Global) -> Result<(), HostFault> {
        let answer = self.host.sync_names(alloc);
        self.counts.file_call(self.witness.names_synced(answer))
    }

    fn settle(&mut self, alloc: Global) -> Result<(), HostFault> {
        let answer = self.host.settle(alloc);
        self.counts.file_call(self.witness.settled(answer))
    }

    fn rename(&mut self, alloc: Global, from: &Name, to: &Name) -> Result<(), HostFault> {
        let answer = self.host.rename(alloc, from, to);
        self.counts
            .file_call(self.witness.renamed(from, to, answer))
    }

    fn remove(&mut self, alloc: Global, name: &Name) -> Result<(), HostFault> {
        let answer = self.host.remove(alloc, name);
        self.counts.file_call(self.witness.removed(name, answer))
    }

    fn start(
        &mut self,
        alloc: Global,
        number: u32,
        name: &Name,
        nice: u8,
    ) -> Result<Child, StartFault> {
        let answer = self.host.start(alloc, number, name, nice);
        self.witness.started(number, name, nice, &answer);
        self.counts.start_call(answer)
    }

    fn ended(&mut self, alloc: Global, child: &Child) -> Result<Option<Ending>, AllocError> {
        let answer = self.host.ended(alloc, child);
        self.witness.asked(child, answer)
    }
}
