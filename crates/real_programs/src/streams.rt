//! The clock and the streams of a process. What the clock answered and what the outputs took is reported; what the input
//! holds is what its witness knows.
ghost use Rattle.std.specs.Prelude.{◌≡◌, [], IfOk};
ghost use Rattle.std.specs.Path.{IsAbsolute};

use host_calls::Name;
use std::alloc::AllocError;
use unix_host::{UnixErr, UnixInputs, UnixOut, UnixReadings};
use witnessed_host::{InputWitness, NotedReadings, NotedSink, WitnessedInputs};

/// The clock and the load of the machine, which tell what they answered.
pub type RealClock = NotedReadings<UnixReadings<HostRuntime>>;

/// Standard input and the files of the system, next to a witness.
pub type RealInput<V> = WitnessedInputs<UnixInputs<HostRuntime>, V>;

/// Standard output, which tells what was put.
pub type RealOutput = NotedSink<UnixOut<HostRuntime>>;

/// Standard error, which tells what was put.
pub type RealErrors = NotedSink<UnixErr<HostRuntime>>;

/// The clock, which has answered nothing so far.
pub fn real_clock(rt: &HostRuntime) -> Result<RealClock, AllocError>
    ensures nothing { IfOk result (λ clock. clock.trace.items ≡ []) }
{
    Ok(NotedReadings::new(UnixReadings::make(rt.clone()?)))
}

/// The same, whose rests end at a full second, and earlier where one of these files of a directory has changed.
pub fn watching_clock(
    rt: &HostRuntime,
    directory: &str,
    names: &[Name],
) -> Result<RealClock, AllocError>
    requires { IsAbsolute directory.now }
    ensures nothing { IfOk result (λ clock. clock.trace.items ≡ []) }
{
    let readings = UnixReadings::watching(rt.clone()?, rt.alloc(), directory, names)?;
    Ok(NotedReadings::new(readings))
}

/// The input, next to this witness.
pub fn real_input<V: InputWitness + Drop>(
    rt: &HostRuntime,
    witness: V,
) -> Result<RealInput<V>, AllocError>
    ensures witness { IfOk result (λ input. input.witness ≡ witness) }
{
    Ok(WitnessedInputs::new(UnixInputs::make(rt.clone()?), witness))
}

/// Standard output, to which nothing was put so far.
pub fn real_output(rt: &HostRuntime) -> Result<RealOutput, AllocError>
    ensures nothing { IfOk result (λ output. output.log.bytes ≡ []) }
{
    Ok(NotedSink::new(UnixOut::make(rt.clone()?)))
}

/// Standard error, to which nothing was put so far.
pub fn real_errors(rt: &HostRuntime) -> Result<RealErrors, AllocError>
    ensures nothing { IfOk result (λ errors. errors.log.bytes ≡ []) }
{
    Ok(NotedSink::new(UnixErr::make(rt.clone()?)))
}
