//! Standard input, and files by their paths.
ghost use Rattle.std.specs.Prelude.{◌≡◌, ◌≤◌, [], false, IfOk, IsErrOf, length};
ghost use Rattle.host_calls.specs.Causes.{HasCause};
ghost use Rattle.host_calls.specs.Inputs.{after_read};
ghost use Rattle.witnessed_host.specs.EmptyWorld.{no_contents};

use crate::prefix::read_prefix;
use host_calls::{Bytes, InputFault, Inputs};
use std::alloc::Global;
use std::fs::{File, Files};

/// The standard input of this process, and the files of the system.
#[derive(Drop)]
pub struct UnixInputs<R: Files<File = File> + Input + Drop> {
    rt: R,
    pub(crate) reads: u64,
    pub(crate) input_faults: u64,
}

impl<R: Files<File = File> + Input + Drop> UnixInputs<R> {
    /// The standard input and the files of this runtime.
    pub fn make(rt: R) -> UnixInputs<R>
        ensures reads { result.reads ≡ 0 }
        ensures input_faults { result.input_faults ≡ 0 }
    {
        UnixInputs {
            rt,
            reads: 0,
            input_faults: 0,
        }
    }
}

impl<R: Files<File = File> + Input + Drop> Inputs for UnixInputs<R> {
    ghost tells = { false };

    ghost contents = { λ _. no_contents };

    ghost sources = { λ own. record { made_as = []; reads = own.reads; input_faults = own.input_faults } };

    fn standard(&mut self, alloc: Global, most: usize) -> Result<Bytes, InputFault>
        ensures few { IfOk result (λ bytes. length bytes ≤ most) }
        ensures reads { self.new.reads ≡ after_read self.old.reads }
        ensures cause { HasCause InputFault.Failed self.old.input_faults self.new.input_faults result }
        ensures counts { ¬ (IsErrOf result InputFault.Failed) → self.new.input_faults ≡ self.old.input_faults }
    {
        self.reads = self.reads.saturating_add(1);
        let answer = read_prefix(alloc, &mut self.rt.reader(), most);
        counted_fault(&mut self.input_faults, answer)
    }

    fn file(&mut self, alloc: Global, path: &str, most: usize) -> Result<Bytes, InputFault>
        ensures few { IfOk result (λ bytes. length bytes ≤ most) }
        ensures reads { self.new.reads ≡ after_read self.old.reads }
        ensures cause { HasCause InputFault.Failed self.old.input_faults self.new.input_faults result }
        ensures counts { ¬ (IsErrOf result InputFault.Failed) → self.new.input_faults ≡ self.old.input_faults }
    {
        self.reads = self.reads.saturating_add(1);
        let answer = match File::open(&self.rt, path) {
            Ok(mut file) => read_prefix(alloc, &mut file, most),
            Err(_) => Err(InputFault::Failed),
        };
        counted_fault(&mut self.input_faults, answer)
    }
}

fn counted_fault(faults: &mut u64, answer: Result<Bytes, InputFault>) -> Result<Bytes, InputFault>
    ensures same { result ≡ answer }
    ensures cause { HasCause InputFault.Failed faults.old faults.new result }
    ensures quiet { ¬ (IsErrOf result InputFault.Failed) → faults.new ≡ faults.old }
{
    if let Err(InputFault::Failed) = &answer {
        *faults = faults.saturating_add(1);
    }
    answer
}
