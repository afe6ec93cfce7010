//! Accounts, over what the program is lent.
ghost use Rattle.std.specs.Prelude.{map, string_bytes};
ghost use Rattle.host_calls.specs.Session.{IsOutside};
ghost use Rattle.real_programs.specs.Runs.{IsAccountRun};

use crate::system::ProgramSystem;
use at_account::account_program;
use host_calls::{Host, Sink};
use listing_text::Status;
use std::alloc::Global;

/// Counts what became of the jobs.
pub fn run_account<D: Host, C, I, O: Sink, E: Sink>(
    alloc: Global,
    words: &[String],
    system: &mut ProgramSystem<D, C, I, O, E>,
) -> Status
    requires { IsOutside (D.session system.old.directory) }
    ensures { IsAccountRun D.Host O.Sink E.Sink (map string_bytes words.now) system.old system.new result }
{
    account_program(
        alloc,
        words,
        &mut system.directory,
        &mut system.output,
        &mut system.errors,
    )
}
