//! What became of jobs, over what the program is lent.
ghost use Rattle.std.specs.Prelude.{map, string_bytes};
ghost use Rattle.host_calls.specs.Session.{IsOutside};
ghost use Rattle.real_programs.specs.Runs.{IsStatRun};

use crate::system::ProgramSystem;
use at_stat::{StatExit, stat_program};
use host_calls::{Host, Readings, Sink};
use std::alloc::Global;
use tool_output::Caller;

/// Shows what became of jobs, and waits for their ends where the words request it.
pub fn run_stat<D: Host, C: Readings, I, O: Sink, E: Sink>(
    alloc: Global,
    words: &[String],
    caller: &Caller,
    system: &mut ProgramSystem<D, C, I, O, E>,
) -> StatExit
    requires { IsOutside (D.session system.old.directory) }
    ensures { IsStatRun D.Host C.Readings O.Sink E.Sink (map string_bytes words.now) caller.now
        system.old system.new result }
{
    stat_program(
        alloc,
        words,
        caller,
        &mut system.directory,
        &mut system.clock,
        &mut system.output,
        &mut system.errors,
    )
}
