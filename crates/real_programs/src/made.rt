//! The real system of a program: its directories, each next to a witness, the clock and the streams of the process.
ghost use Rattle.std.specs.Prelude.{◌≡◌, IfOk};
ghost use Rattle.host_calls.specs.Session.{IsOutside};
ghost use Rattle.real_programs.specs.Made.{IsDirectoryAt, IsSystem, IsTargetAt, absent_of};
ghost use Rattle.real_programs.specs.Systems.{IsTargetOutside};

use crate::directories::{RealDirectory, existing_directory, new_directory, spool_directory};
use crate::program::Program;
use crate::streams::{
    RealClock, RealErrors, RealInput, RealOutput, real_errors, real_input, real_output,
};
use crate::system::ProgramSystem;
use crate::system_plan::SystemPlan;
use crate::target::SalvageTarget;
use crate::witnesses::Witnesses;
use host_calls::{Host, Text};
use process_input::no_spool;
use std::alloc::AllocError;
use unix_host::Waits;
use witnessed_host::{InputWitness, Witness};

/// What a program works with on a real machine, next to these witnesses.
pub type RealSystem<W, V> = ProgramSystem<
    RealDirectory<W>,
    RealClock,
    RealInput<V>,
    RealOutput,
    RealErrors,
>;

/// The real system of a program, by this plan, with this clock and next to these witnesses.
pub fn real_system<W: Witness + Drop, V: InputWitness + Drop>(
    rt: &HostRuntime,
    program: Program,
    plan: SystemPlan,
    clock: RealClock,
    witnesses: Witnesses<W, V>,
) -> Result<RealSystem<W, V>, AllocError>
    ensures { IfOk result (IsSystem ⟦<RealDirectory<W> as Host>⟧ program plan clock witnesses) }
{
    let waits = plan.waits;
    let directory = program_directory(rt, program, plan.spool, waits, witnesses.directory)?;
    let target = salvage_target(rt, plan.target, waits, witnesses.target)?;
    Ok(ProgramSystem {
        directory,
        target,
        clock,
        input: real_input(rt, witnesses.input)?,
        output: real_output(rt)?,
        errors: real_errors(rt)?,
    })
}

// The directory of a program.
fn program_directory<W: Witness + Drop>(
    rt: &HostRuntime,
    program: Program,
    spool: Text,
    waits: Waits,
    witness: W,
) -> Result<RealDirectory<W>, AllocError>
    ensures outside { IfOk result (λ made. IsOutside (⟦<RealDirectory<W> as Host>⟧.session made)) }
    ensures at { IfOk result (IsDirectoryAt spool (absent_of program) waits witness) }
{
    match program {
        Program::Commands | Program::CommandsThenNoting | Program::Stat => {
            spool_directory(rt, spool, waits, witness)
        }
        Program::Post
        | Program::Trim
        | Program::PostAfterTrim
        | Program::Cron
        | Program::Next
        | Program::Account
        | Program::Check => existing_directory(rt, spool, waits, witness),
    }
}

// The target of a salvage.
fn salvage_target<W: Witness + Drop>(
    rt: &HostRuntime,
    path: Option<Text>,
    waits: Waits,
    witness: W,
) -> Result<SalvageTarget<RealDirectory<W>>, AllocError>
    ensures outside { IfOk result (IsTargetOutside ⟦<RealDirectory<W> as Host>⟧) }
    ensures at { IfOk result (IsTargetAt path waits witness) }
{
    match path {
        Some(path) => Ok(SalvageTarget::Directory(new_directory(rt, path, waits, witness)?)),
        None => Ok(SalvageTarget::Memory(no_spool(rt.alloc())?)),
    }
}
