//! Each program, by cases.
ghost use Rattle.std.specs.Prelude.{◌≡◌, ◌<◌, IfOk, OnErr, map, string_bytes};
ghost use Rattle.host_calls.specs.Session.{IsOutside};
ghost use Rattle.real_programs.specs.ProgramRuns.{IsProgramRun};
ghost use Rattle.real_programs.specs.Systems.{IsTargetOutside};

use crate::account::run_account;
use crate::check::run_check;
use crate::commands::run_commands;
use crate::cron::{run_cron, run_next};
use crate::noting::run_commands_then_noting;
use crate::post::{run_post, run_post_after_trim, run_trim};
use crate::program::Program;
use crate::program_exit::ProgramExit;
use crate::stat::run_stat;
use crate::system::ProgramSystem;
use host_calls::{Host, Inputs, Readings, Sink};
use memory_host::MemoryHost;
use std::alloc::{AllocError, Global};
use tool_output::Caller;

/// Runs a program by these words, for this caller. Out of memory leaves all that it is lent as it was.
pub fn run_program<D: Host, C: Readings, I: Inputs, O: Sink, E: Sink>(
    alloc: Global,
    program: Program,
    words: &[String],
    caller: &Caller,
    system: &mut ProgramSystem<D, C, I, O, E>,
) -> Result<ProgramExit, AllocError>
    requires outside { IsOutside (D.session system.old.directory) }
    requires target { IsTargetOutside D.Host system.old.target }
    requires umask { caller.now.context.umask < 512 }
    ensures run { IfOk result (λ exit. IsProgramRun D.Host ⟦<MemoryHost as Host>⟧ C.Readings I.Inputs O.Sink E.Sink
        program (map string_bytes words.now) caller.now system.old system.new exit) }
    ensures unrun { OnErr result (system.new ≡ system.old) }
{
    let status = match program {
        Program::Commands => run_commands(alloc, words, caller, system),
        Program::CommandsThenNoting => run_commands_then_noting(alloc, words, caller, system),
        Program::Stat => return Ok(ProgramExit::of_stat(run_stat(alloc, words, caller, system))),
        Program::Post => run_post(alloc, words, system),
        Program::Trim => run_trim(alloc, words, system),
        Program::PostAfterTrim => run_post_after_trim(alloc, words, system)?,
        Program::Cron => run_cron(alloc, words, caller, system),
        Program::Next => run_next(alloc, words, caller, system),
        Program::Account => run_account(alloc, words, system),
        Program::Check => run_check(alloc, words, system),
    };
    Ok(ProgramExit::of(status))
}
