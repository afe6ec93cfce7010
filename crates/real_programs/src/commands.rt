//! The commands, over what they are lent.
ghost use Rattle.std.specs.Prelude.{◌<◌, map, string_bytes};
ghost use Rattle.host_calls.specs.Session.{IsOutside};
ghost use Rattle.real_programs.specs.Runs.{IsCommandsRun};

use crate::system::ProgramSystem;
use at_day::program;
use host_calls::{Host, Inputs, Readings, Sink};
use listing_text::Status;
use std::alloc::Global;
use tool_output::Caller;

/// Does what the words of `at`, `batch`, `atq`, `atrm`, `atd` or `atday` request.
pub fn run_commands<D: Host, C: Readings, I: Inputs, O: Sink, E: Sink>(
    alloc: Global,
    words: &[String],
    caller: &Caller,
    system: &mut ProgramSystem<D, C, I, O, E>,
) -> Status
    requires outside { IsOutside (D.session system.old.directory) }
    requires umask { caller.now.context.umask < 512 }
    ensures { IsCommandsRun D.Host C.Readings I.Inputs O.Sink E.Sink (map string_bytes words.now) caller.now
        system.old system.new result }
{
    program(
        alloc,
        words,
        caller,
        &mut system.directory,
        &mut system.clock,
        &mut system.input,
        &mut system.output,
        &mut system.errors,
    )
}
