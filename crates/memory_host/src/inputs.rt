//! Inputs whose content is given.
ghost use Rattle.std.specs.Prelude.{◌≡◌, ◌≤◌, true, false, IfOk, Some, Err, is_some, take, length, option_map};
ghost use Rattle.host_calls.specs.Causes.{HasCause};
ghost use Rattle.host_calls.specs.Inputs.{AreReadOnce, IsInputPrefix};
ghost use Rattle.memory_host.specs.Inputs.{inputs_spelling, given_contents};

use host_calls::{Bytes, InputFault, Inputs};
use std::alloc::{AllocError, Global};

/// A standard input and a file that each path names, or inputs that fail at each call.
#[derive(Drop)]
pub struct MemoryInputs {
    standard: Bytes,
    file: Option<Bytes>,
    fails: bool,
    reads: u64,
    input_faults: u64,
    ghost unfailing: { fails ≡ false → is_some file ≡ true → input_faults ≡ 0 },
}

impl MemoryInputs {
    ghost use Rattle.memory_host.specs.MemoryInputs.{contents_given, sources_so_far};

    /// Inputs with this content. Where there is no file, asking for one fails.
    pub fn make(
        alloc: Global,
        standard: &[u8],
        file: Option<&[u8]>,
        fails: bool,
    ) -> Result<MemoryInputs, AllocError>
        ensures contents { IfOk result (λ made.
            contents_given made ≡ given_contents standard.now (option_map (λ bytes. bytes.now) file.entry)) }
        ensures sources { IfOk result (λ made.
            sources_so_far made
            ≡ record {
              made_as = inputs_spelling standard.now (option_map (λ bytes. bytes.now) file.entry) fails;
              reads = 0;
              input_faults = 0;
            }) }
    {
        let file = match file {
            Some(bytes) => Some(Bytes::of(alloc, bytes)?),
            None => None,
        };
        Ok(MemoryInputs {
            standard: Bytes::of(alloc, standard)?,
            file,
            fails,
            reads: 0,
            input_faults: 0,
        })
    }
}

impl Inputs for MemoryInputs {
    ghost use Rattle.memory_host.specs.MemoryInputs.{are_failing, contents_given, file_fails, sources_so_far};

    ghost tells = { true };

    ghost contents = { contents_given };

    ghost sources = { sources_so_far };

    fn standard(&mut self, alloc: Global, most: usize) -> Result<Bytes, InputFault>
        ensures prefix { IfOk result (IsInputPrefix (Some (contents_given self.old).standard) most) }
        ensures few { IfOk result (λ bytes. length bytes ≤ most) }
        ensures contents { contents_given self.new ≡ contents_given self.old }
        ensures once { AreReadOnce (sources_so_far self.old) (sources_so_far self.new) }
        ensures cause { HasCause InputFault.Failed
            (sources_so_far self.old).input_faults (sources_so_far self.new).input_faults result }
        ensures planned { are_failing self.old ≡ true → result ≡ Err InputFault.Failed }
        ensures unplanned { result ≡ Err InputFault.Failed → are_failing self.old ≡ true }
    {
        self.reads = self.reads.saturating_add(1);
        if self.fails {
            self.input_faults = self.input_faults.saturating_add(1);
            return Err(InputFault::Failed);
        }
        Ok(content_prefix(alloc, self.standard.as_slice(), most)?)
    }

    fn file(&mut self, alloc: Global, _path: &str, most: usize) -> Result<Bytes, InputFault>
        ensures prefix { IfOk result (IsInputPrefix ((contents_given self.old).file _path.now) most) }
        ensures few { IfOk result (λ bytes. length bytes ≤ most) }
        ensures contents { contents_given self.new ≡ contents_given self.old }
        ensures once { AreReadOnce (sources_so_far self.old) (sources_so_far self.new) }
        ensures cause { HasCause InputFault.Failed
            (sources_so_far self.old).input_faults (sources_so_far self.new).input_faults result }
        ensures planned { file_fails self.old ≡ true → result ≡ Err InputFault.Failed }
        ensures unplanned { result ≡ Err InputFault.Failed → file_fails self.old ≡ true }
    {
        self.reads = self.reads.saturating_add(1);
        match &self.file {
            Some(bytes) if !self.fails => Ok(content_prefix(alloc, bytes.as_slice(), most)?),
            _ => {
                self.input_faults = self.input_faults.saturating_add(1);
                Err(InputFault::Failed)
            }
        }
    }
}

// The first bytes, all of them or `most`.
fn content_prefix(alloc: Global, bytes: &[u8], most: usize) -> Result<Bytes, AllocError>
    ensures { IfOk result (λ prefix. prefix ≡ take most bytes.now) }
{
    Bytes::of(alloc, &bytes[..most.min(bytes.len())])
}
