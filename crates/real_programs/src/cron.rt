//! Crontabs, over what the programs are lent.
ghost use Rattle.std.specs.Prelude.{◌<◌, map, string_bytes};
ghost use Rattle.host_calls.specs.Session.{IsOutside};
ghost use Rattle.real_programs.specs.Runs.{IsCronRun, IsNextRun};

use crate::system::ProgramSystem;
use cron_turn::{cron_program, next_program};
use host_calls::{Host, Inputs, Readings, Sink};
use listing_text::Status;
use std::alloc::Global;
use tool_output::Caller;

/// Makes sessions of a crontab.
pub fn run_cron<D: Host, C: Readings, I: Inputs, O, E: Sink>(
    alloc: Global,
    words: &[String],
    caller: &Caller,
    system: &mut ProgramSystem<D, C, I, O, E>,
) -> Status
    requires outside { IsOutside (D.session system.old.directory) }
    requires umask { caller.now.context.umask < 512 }
    ensures { IsCronRun D.Host C.Readings I.Inputs E.Sink (map string_bytes words.now) caller.now
        system.old system.new result }
{
    cron_program(
        alloc,
        words,
        caller,
        &mut system.directory,
        &mut system.clock,
        &mut system.input,
        &mut system.errors,
    )
}

/// Lists the next minutes at which the entries of a crontab are due, in the zone of the caller. No spool is looked at.
pub fn run_next<D, C: Readings, I: Inputs, O: Sink, E: Sink>(
    alloc: Global,
    words: &[String],
    caller: &Caller,
    system: &mut ProgramSystem<D, C, I, O, E>,
) -> Status
    ensures { IsNextRun C.Readings I.Inputs O.Sink E.Sink (map string_bytes words.now) caller.now
        system.old system.new result }
{
    next_program(
        alloc,
        words,
        &caller.zone,
        &mut system.clock,
        &mut system.input,
        &mut system.output,
        &mut system.errors,
    )
}
