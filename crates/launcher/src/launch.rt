//! A tool on its spool, from the lists of the machine to its end.
ghost use Rattle.std.specs.Prelude.{◌≡◌, ◌<◌, IfOk, None, map, string_bytes};
ghost use Rattle.launcher.specs.ExitCodes.{IsExitCodeOf};
ghost use Rattle.launcher.specs.Launches.{EndsLaunch};
ghost use Rattle.launcher.specs.Submissions.{IsSubmission};
ghost use Rattle.listing_text.specs.Cause.{status_of};
ghost use Rattle.real_programs.specs.ProgramRuns.{exit_of};

use crate::programs::run_tool_on;
use crate::refusal::refuse_tool;
use crate::submission::SubmittedWords;
use crate::tool_run::ToolRun;
use caller_environment::ToolName;
use caller_rules::{Admission, ToolSpool, admit};
use host_calls::{Host, Inputs, Readings, Sink};
use listing_text::{Cause, Refusal};
use memory_host::MemoryHost;
use process_input::Invoker;
use real_programs::{RealClock, RealDirectory, RealErrors, RealInput, RealOutput, Witnesses};
use std::alloc::AllocError;
use system_calls::System;
use witnessed_host::{InputWitness, Witness};

/// Does what the words of a tool request on its spool, where its caller may, next to these witnesses.
pub fn launch<S: System, W: Witness + Drop, V: InputWitness + Drop>(
    rt: &HostRuntime,
    system: &mut S,
    tool: ToolName,
    words: &mut Vec<String>,
    submission: SubmittedWords,
    invoker: &Invoker,
    spool: &ToolSpool,
    witnesses: Witnesses<W, V>,
) -> Result<ToolRun<W, V>, AllocError>
    requires { IsSubmission tool (map string_bytes words.old.items) submission }
    /// A tool does not run where the lists of the machine refuse its caller, its spool is not theirs, or another daemon has it;
    /// else it is admitted, and its program runs once, by its words, for its caller and on its spool.
    ensures launch { IfOk result (λ run. EndsLaunch ⟦<RealDirectory<W> as Host>⟧ ⟦<MemoryHost as Host>⟧
        ⟦<RealClock as Readings>⟧ ⟦<RealInput<V> as Inputs>⟧ ⟦<RealOutput as Sink>⟧ ⟦<RealErrors as Sink>⟧
        tool (map string_bytes words.old.items) (map string_bytes words.new.items) invoker.now.user invoker.now.caller
        spool.now witnesses (S.trace system.old) (S.trace system.new) run.system run.exit) }
    ensures code { IfOk result (λ run. IsExitCodeOf tool run.exit.code) }
{
    let admission = admit(
        system,
        rt.alloc(),
        tool,
        words,
        submission.submits,
        &invoker.user,
        spool,
    )?;
    match admission {
        Admission::Refused => Ok(turned_away(rt, tool, Cause::Refused(Refusal::NotAllowed))),
        Admission::KeptOut => Ok(turned_away(rt, tool, Cause::FileFault)),
        Admission::Busy => Ok(turned_away(rt, tool, Cause::Busy)),
        Admission::Admitted(paths) => run_tool_on(
            rt,
            system,
            tool,
            words,
            submission.mails,
            invoker,
            spool,
            &paths,
            witnesses,
        ),
    }
}

// Says why a tool does not run.
fn turned_away<W: Witness + Drop, V: InputWitness + Drop>(
    rt: &HostRuntime,
    tool: ToolName,
    cause: Cause,
) -> ToolRun<W, V>
    ensures exit { result.exit ≡ exit_of (status_of cause) }
    ensures system { result.system ≡ None }
    ensures code { IsExitCodeOf tool result.exit.code }
{
    ToolRun::unrun(refuse_tool(rt, tool, cause))
}
