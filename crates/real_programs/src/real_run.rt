//! A program over the real system that is made for it.
ghost use Rattle.std.specs.Prelude.{◌<◌, IfOk, map, string_bytes};
ghost use Rattle.real_programs.specs.ProgramRuns.{IsExitOf};
ghost use Rattle.real_programs.specs.RealRuns.{IsRealRun};

use crate::directories::RealDirectory;
use crate::made::{RealSystem, real_system};
use crate::program::Program;
use crate::program_exit::ProgramExit;
use crate::run::run_program;
use crate::streams::{RealClock, RealErrors, RealInput, RealOutput};
use crate::system_plan::SystemPlan;
use crate::witnesses::Witnesses;
use host_calls::{Host, Inputs, Readings, Sink};
use memory_host::MemoryHost;
use std::alloc::AllocError;
use tool_output::Caller;
use witnessed_host::{InputWitness, Witness};

/// A program that ended, and the system over which it ran.
#[derive(Drop)]
pub struct RealRun<W: Witness + Drop, V: InputWitness + Drop> {
    pub exit: ProgramExit,
    pub system: RealSystem<W, V>,
}

/// Makes the real system of a program by this plan, with this clock and next to these witnesses, and runs the program over it
/// once. The system is given back, so a caller sees what was done.
pub fn run_on_real_system<W: Witness + Drop, V: InputWitness + Drop>(
    rt: &HostRuntime,
    program: Program,
    words: &[String],
    caller: &Caller,
    plan: SystemPlan,
    clock: RealClock,
    witnesses: Witnesses<W, V>,
) -> Result<RealRun<W, V>, AllocError>
    requires umask { caller.now.context.umask < 512 }
    ensures run { IfOk result (λ ran. IsRealRun ⟦<RealDirectory<W> as Host>⟧ ⟦<MemoryHost as Host>⟧
        ⟦<RealClock as Readings>⟧ ⟦<RealInput<V> as Inputs>⟧ ⟦<RealOutput as Sink>⟧ ⟦<RealErrors as Sink>⟧
        program (map string_bytes words.now) caller.now plan clock witnesses ran.system ran.exit) }
    ensures code { IfOk result (λ ran. IsExitOf program ran.exit) }
{
    let mut system = real_system(rt, program, plan, clock, witnesses)?;
    let exit = run_program(rt.alloc(), program, words, caller, &mut system)?;
    Ok(RealRun { exit, system })
}
