//! Inputs that expose nothing and note each call.
ghost use Rattle.std.specs.Prelude.{[], false, refl};
ghost use Rattle.witnessed_host.specs.EmptyWorld.{no_contents};

use crate::recorder::note;
use host_calls::{Bytes, InputFault, Inputs};
use std::alloc::Global;
use witnessed_host::UnmodelledInputs;

/// Note each call with what it was given, a line each. Standard input has what was noted.
#[derive(Drop)]
pub struct InputRecorder {
    reads: u64,
    log: Vec<u8>,
}

impl InputRecorder {
    /// Inputs that were not read.
    pub fn new(alloc: Global) -> InputRecorder {
        InputRecorder {
            reads: 0,
            log: Vec::new(alloc),
        }
    }
}

impl UnmodelledInputs for InputRecorder {
    ghost unmodelled = { refl };
}

impl Inputs for InputRecorder {
    ghost tells = { false };

    ghost contents = { λ _. no_contents };

    ghost sources = { λ own. record { made_as = []; reads = own.reads; input_faults = 0 } };

    fn standard(&mut self, alloc: Global, most: usize) -> Result<Bytes, InputFault> {
        self.reads = self.reads.saturating_add(1);
        let given = format!(in alloc; "{most}")?;
        note(&mut self.log, b"standard", given.as_bytes(), b"")?;
        let count = self.log.len().min(most);
        Ok(Bytes::of(alloc, &self.log.as_slice()[..count])?)
    }

    fn file(&mut self, alloc: Global, path: &str, most: usize) -> Result<Bytes, InputFault> {
        self.reads = self.reads.saturating_add(1);
        let given = format!(in alloc; "{most}")?;
        note(&mut self.log, b"file", path.as_bytes(), given.as_bytes())?;
        let found = b"of the file";
        Ok(Bytes::of(alloc, &found[..found.len().min(most)])?)
    }
}
