//! Inputs that count how often they are asked.
ghost use Rattle.std.specs.Prelude.{◌+◌, ◌-◌, ◌^◌, [], None, false, min};

use host_calls::{Bytes, InputFault, Inputs};
use std::alloc::Global;

// What each input holds.
const COMMANDS: &[u8] = b"echo hi\n";

/// Inputs that hold one line, and how often each kind was asked. A second read of a pipe would lack what the first one
/// took.
#[derive(Drop)]
pub struct CountingInputs {
    pub of_standard: u64,
    pub of_file: u64,
}

impl CountingInputs {
    /// Inputs that nobody has asked.
    pub fn new() -> CountingInputs {
        CountingInputs {
            of_standard: 0,
            of_file: 0,
        }
    }
}

impl Inputs for CountingInputs {
    ghost tells = { false };

    ghost contents = { λ inputs. record { standard = []; file = λ path. None } };

    ghost sources = { λ inputs. record { made_as = []; reads = min (inputs.of_standard + inputs.of_file) (2 ^ 64 - 1); input_faults = 0 } };

    fn standard(&mut self, alloc: Global, most: usize) -> Result<Bytes, InputFault> {
        self.of_standard = self.of_standard.saturating_add(1);
        Ok(Bytes::of(alloc, &COMMANDS[..COMMANDS.len().min(most)])?)
    }

    fn file(&mut self, alloc: Global, _path: &str, most: usize) -> Result<Bytes, InputFault> {
        self.of_file = self.of_file.saturating_add(1);
        Ok(Bytes::of(alloc, &COMMANDS[..COMMANDS.len().min(most)])?)
    }
}
