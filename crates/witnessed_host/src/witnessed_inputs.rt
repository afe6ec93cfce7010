//! Inputs next to a witness.
ghost use Rattle.std.specs.Prelude.{◌≡◌};

use crate::counts::input_call;
use crate::{InputWitness, UnmodelledInputs};
use host_calls::{Bytes, InputFault, Inputs};
use std::alloc::Global;

/// Inputs that expose nothing of their content, next to a witness who is notified of each call with its answer. The
/// two of them report what he knows. A dispute counts as a fault of the inputs.
#[derive(Drop)]
pub struct WitnessedInputs<I: UnmodelledInputs + Drop, W: InputWitness + Drop> {
    inputs: I,
    witness: W,
    input_faults: u64,
}

impl<I: UnmodelledInputs + Drop, W: InputWitness + Drop> WitnessedInputs<I, W> {
    /// The inputs next to the witness. Nothing was counted so far.
    pub fn new(inputs: I, witness: W) -> WitnessedInputs<I, W>
        ensures inputs { result.inputs ≡ inputs }
        ensures witness { result.witness ≡ witness }
        ensures count { result.input_faults ≡ 0 }
    {
        WitnessedInputs {
            inputs,
            witness,
            input_faults: 0,
        }
    }
}

impl<I: UnmodelledInputs + Drop, W: InputWitness + Drop> Inputs for WitnessedInputs<I, W> {
    ghost use Rattle.witnessed_host.specs.Counted.{counted_sources};

    ghost tells = { W.knows };

    ghost contents = { λ own. W.contents own.witness };

    ghost sources = { λ own. counted_sources (I.Inputs.sources own.inputs) own.input_faults };

    fn standard(&mut self, alloc: Global, most: usize) -> Result<Bytes, InputFault> {
        let answer = self.inputs.standard(alloc, most);
        input_call(&mut self.input_faults, self.witness.standard(most, answer))
    }

    fn file(&mut self, alloc: Global, path: &str, most: usize) -> Result<Bytes, InputFault> {
        let answer = self.inputs.file(alloc, path, most);
        input_call(
            &mut self.input_faults,
            self.witness.file(path, most, answer),
        )
    }
}
