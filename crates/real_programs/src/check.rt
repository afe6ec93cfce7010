//! The checker, over what it is lent.
ghost use Rattle.std.specs.Prelude.{map, string_bytes};
ghost use Rattle.host_calls.specs.Session.{IsOutside};
ghost use Rattle.real_programs.specs.CheckRuns.{IsCheckRun};
ghost use Rattle.real_programs.specs.Systems.{IsTargetOutside};

use crate::system::ProgramSystem;
use crate::target::SalvageTarget;
use host_calls::{Host, Sink};
use listing_text::Status;
use memory_host::MemoryHost;
use spool_check::check_program;
use std::alloc::Global;

/// Reports every fault of the directory, and writes what is saved of it into the target where the words request it.
pub fn run_check<D: Host, C, I, O: Sink, E: Sink>(
    alloc: Global,
    words: &[String],
    system: &mut ProgramSystem<D, C, I, O, E>,
) -> Status
    requires directory { IsOutside (D.session system.old.directory) }
    requires target { IsTargetOutside D.Host system.old.target }
    ensures { IsCheckRun D.Host ⟦<MemoryHost as Host>⟧ O.Sink E.Sink (map string_bytes words.now)
        system.old system.new result }
{
    match &mut system.target {
        SalvageTarget::Directory(to) => check_program(
            alloc,
            words,
            &mut system.directory,
            to,
            &mut system.output,
            &mut system.errors,
        ),
        SalvageTarget::Memory(to) => check_program(
            alloc,
            words,
            &mut system.directory,
            to,
            &mut system.output,
            &mut system.errors,
        ),
    }
}
