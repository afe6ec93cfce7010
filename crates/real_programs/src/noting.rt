//! The commands, and then the notes of the jobs that are new.
ghost use Rattle.std.specs.Prelude.{◌<◌, map, string_bytes};
ghost use Rattle.host_calls.specs.Session.{IsOutside};
ghost use Rattle.real_programs.specs.NotingRuns.{IsCommandsThenNoting, NotesIf};

use crate::commands::run_commands;
use crate::system::ProgramSystem;
use at_mail::note_new_jobs;
use host_calls::{Host, Inputs, Readings, Sink};
use listing_text::Status;
use std::alloc::Global;
use tool_output::Caller;

/// Does what the words of `at` or `batch` request, and notes the jobs that are new where that was done: one may be over before
/// a session of mail looks.
pub fn run_commands_then_noting<D: Host, C: Readings, I: Inputs, O: Sink, E: Sink>(
    alloc: Global,
    words: &[String],
    caller: &Caller,
    system: &mut ProgramSystem<D, C, I, O, E>,
) -> Status
    requires outside { IsOutside (D.session system.old.directory) }
    requires umask { caller.now.context.umask < 512 }
    ensures { IsCommandsThenNoting D.Host C.Readings I.Inputs O.Sink E.Sink (map string_bytes words.now) caller.now
        system.old system.new result }
{
    let status = run_commands(alloc, words, caller, system);
    note_if(alloc, status.cause.is_done(), system);
    status
}

// (a noting that fails is made up for by the next session of mail)
fn note_if<D: Host, C, I, O, E>(
    alloc: Global,
    is_done: bool,
    system: &mut ProgramSystem<D, C, I, O, E>,
)
    requires { IsOutside (D.session system.old.directory) }
    ensures { NotesIf is_done D.Host system.old system.new }
{
    if is_done {
        note_new_jobs(alloc, &mut system.directory);
    }
}
