//! The clock, the input and the outputs, in memory.
use memory_host::{ListReadings, MemoryInputs, MemorySink};
use std::alloc::{AllocError, Global};

/// A clock that stands still, an input that is a script and a file that is a crontab, and two outputs.
#[derive(Drop)]
pub struct Environment {
    pub readings: ListReadings,
    pub inputs: MemoryInputs,
    pub out: MemorySink,
    pub err: MemorySink,
}

// Two entries that are due at each minute, and one that never is.
const CRONTAB: &[u8] = b"* * * * * echo 1\n* * * * * cat%a%b\n0 0 31 2 * echo 3\n";

/// The environment at this second.
pub fn environment_at(alloc: Global, now: i64) -> Result<Environment, AllocError> {
    Ok(Environment {
        readings: ListReadings::make(alloc, &[now], &[None])?,
        inputs: MemoryInputs::make(alloc, b"echo hi\n", Some(CRONTAB), false)?,
        out: MemorySink::make(alloc, None),
        err: MemorySink::make(alloc, None),
    })
}
