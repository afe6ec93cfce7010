//! A tool by its words.
ghost use Rattle.std.specs.Prelude.{◌≡◌, ◌<◌, IfOk, IfSome, codes, map, string_bytes};
ghost use Rattle.caller_rules.specs.DaemonStarts.{has_option};
ghost use Rattle.launcher.specs.ExitCodes.{IsExitCodeOf, IsStatus};
ghost use Rattle.launcher.specs.ToolEnds.{IsCallersEnd, IsEndApart, IsToolEnd, program_apart};
ghost use Rattle.system_calls.specs.Calls.{Continues};
ghost use Rattle.real_programs.specs.declared.program.Program.TheVariants.{Stat};

use crate::crontab_file::unsafe_crontab;
use crate::launch::launch;
use crate::lock_wait::lock_wait;
use crate::refusal::{refuse_tool, refuse_unknown_caller};
use crate::self_description::{describe, description_asked};
use crate::send_program::unusable_program;
use crate::submission::submission_of;
use crate::tool_end::{HowEnded, ToolEnd};
use crate::tool_run::ToolRun;
use crate::tool_spool::spool_of;
use caller_environment::{ToolName, row_of_tool};
use caller_rules::{CallingUser, has_option};
use host_calls::{Host, Inputs, Readings, Sink, Text};
use listing_text::{Cause, Refusal, Status};
use memory_host::MemoryHost;
use process_input::{caller_of, invoker_of};
use real_programs::{
    Program, RealClock, RealDirectory, RealErrors, RealInput, RealOutput, SystemPlan, Witnesses,
    real_clock, run_on_real_system,
};
use std::alloc::AllocError;
use system_calls::System;
use tool_output::Caller;
use witnessed_host::{InputWitness, Witness};

/// Does what the words of this tool request, next to these witnesses.
pub fn run_tool<S: System, W: Witness + Drop, V: InputWitness + Drop>(
    rt: &HostRuntime,
    system: &mut S,
    tool: ToolName,
    words: &mut Vec<String>,
    witnesses: Witnesses<W, V>,
) -> Result<ToolEnd<W, V>, AllocError>
    /// A tool says what it is asked of itself, or its program runs once with no spool, or it is launched on its spool; else
    /// nothing runs.
    ensures end { IfOk result (λ end. IsToolEnd ⟦<RealDirectory<W> as Host>⟧ ⟦<MemoryHost as Host>⟧
        ⟦<RealClock as Readings>⟧ ⟦<RealInput<V> as Inputs>⟧ ⟦<RealOutput as Sink>⟧ ⟦<RealErrors as Sink>⟧
        tool (map string_bytes words.old.items) (map string_bytes words.new.items) witnesses
        (S.trace system.old) (S.trace system.new) end.how end.run.system end.run.exit) }
    /// The exit status is that of a cause; that of `atstat` may be a job's.
    ensures code { IfOk result (λ end. IsExitCodeOf tool end.run.exit.code) }
{
    if let Some(asked) = description_asked(words) {
        let status = describe(rt, system, tool, asked)?;
        return Ok(ToolEnd {
            how: HowEnded::Described,
            run: ToolRun::unrun(status),
        });
    }
    match program_apart(tool, words) {
        Some(program) => run_apart(rt, system, tool, program, words, witnesses),
        None => run_for_caller(rt, system, tool, words, witnesses),
    }
}

// The program of a tool that needs no spool: a day is made in memory, and next minutes are listed.
fn program_apart(tool: ToolName, words: &[String]) -> Option<Program>
    ensures { result ≡ program_apart tool (has_option (codes "--next") (map string_bytes words.now)) }
{
    match tool {
        ToolName::Atday => Some(Program::Commands),
        ToolName::Atcron if has_option(words, "--next") => Some(Program::Next),
        _ => None,
    }
}

// Runs a program with no spool: its directory is never entered.
fn run_apart<S: System, W: Witness + Drop, V: InputWitness + Drop>(
    rt: &HostRuntime,
    system: &mut S,
    tool: ToolName,
    program: Program,
    words: &[String],
    witnesses: Witnesses<W, V>,
) -> Result<ToolEnd<W, V>, AllocError>
    requires program { ¬ (program ≡ Stat) }
    ensures end { IfOk result (λ end. IsEndApart ⟦<RealDirectory<W> as Host>⟧ ⟦<MemoryHost as Host>⟧
        ⟦<RealClock as Readings>⟧ ⟦<RealInput<V> as Inputs>⟧ ⟦<RealOutput as Sink>⟧ ⟦<RealErrors as Sink>⟧
        program (map string_bytes words.now) witnesses end.how end.run.system end.run.exit) }
    ensures code { IfOk result (λ end. IsExitCodeOf tool end.run.exit.code) }
{
    let Some(caller) = caller_apart(rt, program)? else {
        return Ok(ToolEnd {
            how: HowEnded::UnknownCaller,
            run: ToolRun::unrun(refuse_unknown_caller(rt, tool)),
        });
    };
    let plan = SystemPlan {
        spool: Text::of(rt.alloc(), "/")?,
        target: None,
        waits: lock_wait(system),
    };
    let clock = real_clock(rt)?;
    let ran = run_on_real_system(rt, program, words, &caller, plan, clock, witnesses)?;
    Ok(ToolEnd {
        how: HowEnded::Apart,
        run: ToolRun {
            exit: ran.exit,
            system: Some(ran.system),
        },
    })
}

// The caller of such a program: a day has the one that the environment names.
fn caller_apart(rt: &HostRuntime, program: Program) -> Result<Option<Caller>, AllocError>
    ensures { IfOk result (λ caller. IfSome caller (λ known. known.context.umask < 512)) }
{
    if let Program::Commands = program {
        return Ok(Some(caller_of(rt)?));
    }
    match invoker_of(rt)? {
        Some(invoker) => Ok(Some(invoker.caller)),
        None => Ok(None),
    }
}

// Does what the words request for the caller of this process, on its spool.
fn run_for_caller<S: System, W: Witness + Drop, V: InputWitness + Drop>(
    rt: &HostRuntime,
    system: &mut S,
    tool: ToolName,
    words: &mut Vec<String>,
    witnesses: Witnesses<W, V>,
) -> Result<ToolEnd<W, V>, AllocError>
    ensures end { IfOk result (λ end. IsCallersEnd ⟦<RealDirectory<W> as Host>⟧ ⟦<MemoryHost as Host>⟧
        ⟦<RealClock as Readings>⟧ ⟦<RealInput<V> as Inputs>⟧ ⟦<RealOutput as Sink>⟧ ⟦<RealErrors as Sink>⟧
        tool (map string_bytes words.old.items) (map string_bytes words.new.items) witnesses
        (S.trace system.old) (S.trace system.new) end.how end.run.system end.run.exit) }
    ensures code { IfOk result (λ end. IsExitCodeOf tool end.run.exit.code) }
{
    let Some(invoker) = invoker_of(rt)? else {
        return Ok(ToolEnd {
            how: HowEnded::UnknownCaller,
            run: ToolRun::unrun(refuse_unknown_caller(rt, tool)),
        });
    };
    let spool = spool_of(system, rt.alloc(), tool, words, &invoker.user)?;
    if let Some(status) = refused_before(rt, system, tool, words, &invoker.user) {
        return Ok(ToolEnd {
            how: HowEnded::Refused,
            run: ToolRun::unrun(status),
        });
    }
    let submission = submission_of(rt.alloc(), tool, words);
    let run = launch(
        rt, system, tool, words, submission, &invoker, &spool, witnesses,
    )?;
    Ok(ToolEnd {
        how: HowEnded::Launched(invoker, spool, submission.submits),
        run,
    })
}

// Says why the words of a tool, or the name of its caller, refuse it, if they do.
fn refused_before<S: System>(
    rt: &HostRuntime,
    system: &mut S,
    tool: ToolName,
    words: &[String],
    user: &CallingUser,
) -> Option<Status>
    ensures asked { Continues (S.trace system.old) (S.trace system.new) }
    ensures status { IfSome result IsStatus }
{
    match tool {
        ToolName::Atpost => {
            let path = unusable_program(rt, words)?;
            let _ = eprintln!(rt; "atpost: {path} can not be executed");
            Some(Status::of(Cause::Refused(Refusal::Usage)))
        }
        ToolName::Atcron => {
            let path = unsafe_crontab(system, words, user)?;
            let _ = eprintln!(rt; "atcron: {path} is another user's, or others may write it");
            Some(Status::of(Cause::InputFault))
        }
        _ if row_of_tool(tool).consults_lists && user.has_name_of_digits() => {
            Some(refuse_tool(rt, tool, Cause::Refused(Refusal::BadUser)))
        }
        _ => None,
    }
}
