//! A host that exposes nothing and notes each call.
ghost use Rattle.std.specs.Prelude.{◌≡◌, [], None, false, option_to_list, refl};
ghost use Rattle.witnessed_host.specs.EmptyWorld.{empty_world};

use host_calls::{Child, Ending, EnterFault, Host, HostFault, Name, StartFault};
use std::alloc::{AllocError, Global};
use witnessed_host::Unmodelled;

/// Notes each call with what it was given, a line each. It has one child at most.
#[derive(Drop)]
pub struct Recorder {
    is_inside: bool,
    child: Option<Child>,
    start_faults: u64,
    log: Vec<u8>,
}

impl Recorder {
    /// A host that was not called.
    pub fn new(alloc: Global) -> Recorder
        ensures outside { result.is_inside ≡ false }
        ensures none { result.child ≡ None }
    {
        Recorder {
            is_inside: false,
            child: None,
            start_faults: 0,
            log: Vec::new(alloc),
        }
    }
}

/// Writes a line with a call and what it was given after the others.
pub fn note(log: &mut Vec<u8>, call: &[u8], first: &[u8], second: &[u8]) -> Result<(), AllocError> {
    log.extend_from_slice(call)?;
    log.push(b'|')?;
    log.extend_from_slice(first)?;
    log.push(b'|')?;
    log.extend_from_slice(second)?;
    log.push(b'\n')?;
    Ok(())
}

impl Unmodelled for Recorder {
    ghost unmodelled = { refl };
}

impl Host for Recorder {
    ghost tells = { false };

    ghost alone = { false };

    ghost session = { λ own. record {
      inside = own.is_inside;
      children = option_to_list own.child;
      made_as = [];
      file_faults = 0;
      start_faults = own.start_faults;
      taken = 0;
    } };

    ghost world = { λ _. empty_world };

    fn enter(&mut self, _alloc: Global) -> Result<(), EnterFault> {
        note(&mut self.log, b"enter", b"", b"")?;
        self.is_inside = true;
        Ok(())
    }

    fn leave(&mut self) {
        let _noted = note(&mut self.log, b"leave", b"", b"");
        self.is_inside = false;
    }

    fn names(&mut self, alloc: Global) -> Result<Vec<Name>, HostFault> {
        note(&mut self.log, b"names", b"", b"")?;
        Ok(Vec::from_slice(alloc, &[Name::of(b"a").unwrap()])?)
    }

    fn length(&mut self, _alloc: Global, name: &Name) -> Result<u64, HostFault> {
        note(&mut self.log, b"length", name.as_bytes(), b"")?;
        Ok(42)
    }

    // What was noted, up to so many bytes.
    fn read(
        &mut self,
        alloc: Global,
        name: &Name,
        offset: u64,
        most: usize,
    ) -> Result<Vec<u8>, HostFault> {
        let range = format!(in alloc; "{offset} {most}")?;
        note(&mut self.log, b"read", name.as_bytes(), range.as_bytes())?;
        let count = self.log.len().min(most);
        Ok(Vec::from_slice(alloc, &self.log.as_slice()[..count])?)
    }

    fn create(&mut self, _alloc: Global, name: &Name, bytes: &[u8]) -> Result<(), HostFault> {
        note(&mut self.log, b"create", name.as_bytes(), bytes)?;
        Ok(())
    }

    fn write(
        &mut self,
        alloc: Global,
        name: &Name,
        offset: u64,
        bytes: &[u8],
    ) -> Result<(), HostFault> {
        let from = format!(in alloc; "write {offset}")?;
        note(&mut self.log, from.as_bytes(), name.as_bytes(), bytes)?;
        Ok(())
    }

    fn sync(&mut self, _alloc: Global, name: &Name) -> Result<(), HostFault> {
        note(&mut self.log, b"sync", name.as_bytes(), b"")?;
        Ok(())
    }

    fn sync_names(&mut self, _alloc: Global) -> Result<(), HostFault> {
        note(&mut self.log, b"sync_names", b"", b"")?;
        Ok(())
    }

    fn settle(&mut self, _alloc: Global) -> Result<(), HostFault> {
        note(&mut self.log, b"settle", b"", b"")?;
        Ok(())
    }

    fn rename(&mut self, _alloc: Global, from: &Name, to: &Name) -> Result<(), HostFault> {
        note(&mut self.log, b"rename", from.as_bytes(), to.as_bytes())?;
        Ok(())
    }

    fn remove(&mut self, _alloc: Global, name: &Name) -> Result<(), HostFault> {
        note(&mut self.log, b"remove", name.as_bytes(), b"")?;
        Ok(())
    }

    fn start(
        &mut self,
        alloc: Global,
        number: u32,
        name: &Name,
        nice: u8,
    ) -> Result<Child, StartFault> {
        let given = format!(in alloc; "{number} {nice}")?;
        note(&mut self.log, b"start", name.as_bytes(), given.as_bytes())?;
        if self.child.is_some() {
            self.start_faults = self.start_faults.saturating_add(1);
            return Err(StartFault::Failed);
        }
        let child = Child { id: 6 };
        self.child = Some(child);
        Ok(child)
    }

    fn ended(&mut self, alloc: Global, child: &Child) -> Result<Option<Ending>, AllocError> {
        let id = child.id;
        let id = format!(in alloc; "{id}")?;
        note(&mut self.log, b"ended", id.as_bytes(), b"")?;
        Ok(Some(Ending::Signal(9)))
    }
}
