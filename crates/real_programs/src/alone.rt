//! A program without the launcher, as the mains run it.
ghost use Rattle.std.specs.Prelude.{IfOk};
ghost use Rattle.real_programs.specs.RealRuns.{IsRunAlone};

use crate::directories::RealDirectory;
use crate::program::Program;
use crate::real_run::{RealRun, run_on_real_system};
use crate::streams::{RealClock, RealErrors, RealInput, RealOutput, real_clock};
use crate::system_plan::SystemPlan;
use crate::witnesses::Witnesses;
use host_calls::{Host, Inputs, Readings, Sink, Text};
use memory_host::MemoryHost;
use process_input::{StartupError, caller_of, process_words, take_directory, variable_or};
use std::alloc::AllocError;
use unix_host::Waits;
use witnessed_host::{InputWitness, Witness};

// Where jobs are if no variable names another directory.
const SPOOL: &str = "/var/spool/atjobs";

// The directory of a program whose words name none: its words request nothing, so it is never entered.
const NO_SPOOL: &str = "/";

/// Runs a program by the words of this process, next to these witnesses. The spool is that of `ATSPOOL`, or the usual one,
/// of the commands and of atstat; and of the others the one that the first word names. The second word names where a
/// salvage writes. Without a word that names a directory these others do nothing, and create none.
pub fn run_alone<W: Witness + Drop, V: InputWitness + Drop>(
    rt: &HostRuntime,
    program: Program,
    witnesses: Witnesses<W, V>,
) -> Result<RealRun<W, V>, StartupError>
    ensures { IfOk result (λ ran. IsRunAlone ⟦<RealDirectory<W> as Host>⟧ ⟦<MemoryHost as Host>⟧
        ⟦<RealClock as Readings>⟧ ⟦<RealInput<V> as Inputs>⟧ ⟦<RealOutput as Sink>⟧ ⟦<RealErrors as Sink>⟧
        program witnesses ran.system ran.exit) }
{
    let mut words = process_words(rt)?;
    let caller = caller_of(rt)?;
    let plan = alone_plan(rt, program, &mut words)?;
    let clock = real_clock(rt)?;
    let ran = run_on_real_system(rt, program, &words, &caller, plan, clock, witnesses)?;
    Ok(ran)
}

// The directories of a program, whose names are taken out of its words.
fn alone_plan(
    rt: &HostRuntime,
    program: Program,
    words: &mut Vec<String>,
) -> Result<SystemPlan, AllocError> {
    match program {
        Program::Commands | Program::CommandsThenNoting | Program::Stat => {
            Ok(plan(variable_or(rt, "ATSPOOL", SPOOL)?, None))
        }
        _ => named_plan(rt, program, words),
    }
}

// The same of a program whose first words name them. Where none does its words are dropped, so it requests nothing.
fn named_plan(
    rt: &HostRuntime,
    program: Program,
    words: &mut Vec<String>,
) -> Result<SystemPlan, AllocError> {
    let Some(spool) = take_directory(words) else {
        words.clear();
        return Ok(plan(Text::of(rt.alloc(), NO_SPOOL)?, None));
    };
    let target = if program == Program::Check {
        take_directory(words).map(Text::from)
    } else {
        None
    };
    Ok(plan(Text::from(spool), target))
}

fn plan(spool: Text, target: Option<Text>) -> SystemPlan {
    SystemPlan {
        spool,
        target,
        waits: Waits::Asking,
    }
}
