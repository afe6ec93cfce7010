//! What a program works with.
use crate::target::SalvageTarget;

/// What a program works with: its directory, where a salvage writes, the clock, the input and the two outputs.
#[derive(Drop)]
pub struct ProgramSystem<D, C, I, O, E> {
    pub directory: D,
    pub target: SalvageTarget<D>,
    pub clock: C,
    pub input: I,
    pub output: O,
    pub errors: E,
}
