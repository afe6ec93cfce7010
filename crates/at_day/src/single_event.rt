//! One event on a machine.
ghost use Rattle.std.specs.Prelude.{◌≡◌, ◌<◌, [], None, true, IfOk, OnErr, OnOk};
ghost use Rattle.daemon_turn.specs.Kids.{AreChildren};
ghost use Rattle.at_words.specs.Tools.{tool_of_words};
ghost use Rattle.at_day.specs.EventsDays.{is_day_event, is_day_tool};
ghost use Rattle.host_calls.specs.Session.{IsOutside};
ghost use Rattle.memory_host.specs.Host.{IsUnchanged, memory_session};
ghost use Rattle.memory_host.specs.MemorySink.{content_so_far, outlet_so_far};
ghost use Rattle.memory_host.specs.Sink.{sink_spelling};
ghost use Rattle.at_day.specs.GivenCommand.{GivesReport, IsGiven, IsGivenUnreported};
ghost use Rattle.at_day.specs.EventEffects.{Happens, IsAsItWas, IsUnreported, HasRestarted};
ghost use Rattle.at_day.specs.Machines.{machine};

use crate::{Event, EventReport, Words};
use at_commands::{Caller, command};
use daemon_turn::{Daemon, Mode};
use host_calls::Bytes;
use listing_text::Status;
use memory_host::{ListReadings, MemoryHost, MemoryInputs, MemorySink};
use std::alloc::{AllocError, Global};

/// Makes one event happen on the host and its daemon: a command, a full turn, or a reboot after which the daemon is made
/// anew.
pub fn one_event(
    alloc: Global,
    event: &Event,
    host: &mut MemoryHost,
    daemon: &mut Daemon,
) -> Result<EventReport, AllocError>
    requires of_day { is_day_event event.now ≡ true }
    requires outside { IsOutside (memory_session host.old) }
    requires children { AreChildren (memory_session host.old).children daemon.old.kids }
    ensures happens { IfOk result (λ report.
        Happens event.now report (machine host.old daemon.old) (machine host.new daemon.new)) }
    ensures unreported { OnErr result
        (IsUnreported event.now (machine host.old daemon.old) (machine host.new daemon.new)) }
{
    match event {
        Event::Command {
            words,
            caller,
            input,
            now,
        } => give_command(alloc, words, caller, input, *now, host),
        Event::Turn { now, load } => {
            let report = daemon.turn(alloc, host, *now, *load, Mode::Full);
            Ok(EventReport::Turn(report))
        }
        Event::Reboot { pick, fuse } => {
            reboot(alloc, *pick, *fuse, host, daemon)?;
            Ok(EventReport::Rebooted)
        }
    }
}

// Gives a command, at a second and with an input, and reports what came of it.
fn give_command(
    alloc: Global,
    words: &Words,
    caller: &Caller,
    input: &Bytes,
    now: i64,
    host: &mut MemoryHost,
) -> Result<EventReport, AllocError>
    requires outside { IsOutside (memory_session host.old) }
    requires tool { is_day_tool (tool_of_words words.now) ≡ true }
    requires umask { caller.now.context.umask < 512 }
    ensures given { IfOk result (λ report. GivesReport words.now caller.now input.now now report host.old host.new) }
    ensures unreported { OnErr result (IsGivenUnreported words.now caller.now input.now now host.old host.new) }
{
    let mut out = MemorySink::make(alloc, None);
    let mut err = MemorySink::make(alloc, None);
    let status = run_command(alloc, words, caller, input, now, host, &mut out, &mut err)?;
    let out = Bytes::of(alloc, out.content())?;
    let err = Bytes::of(alloc, err.content())?;
    Ok(EventReport::Command { status, out, err })
}

// Gives a command, at a second and with an input, on two new sinks.
fn run_command(
    alloc: Global,
    words: &Words,
    caller: &Caller,
    input: &Bytes,
    now: i64,
    host: &mut MemoryHost,
    out: &mut MemorySink,
    err: &mut MemorySink,
) -> Result<Status, AllocError>
    requires outside { IsOutside (memory_session host.old) }
    requires tool { is_day_tool (tool_of_words words.now) ≡ true }
    requires umask { caller.now.context.umask < 512 }
    requires out { content_so_far out.old ≡ [] }
    requires out_made { (outlet_so_far out.old).made_as ≡ sink_spelling None }
    requires err { content_so_far err.old ≡ [] }
    requires err_made { (outlet_so_far err.old).made_as ≡ sink_spelling None }
    ensures given { IfOk result (λ status. IsGiven words.now caller.now input.now now status
        (content_so_far out.new) (content_so_far err.new) host.old host.new) }
    ensures unchanged { OnErr result (IsUnchanged host.old host.new) }
{
    let mut readings = ListReadings::make(alloc, &[now], &[None])?;
    let bytes = input.as_slice();
    let mut inputs = MemoryInputs::make(alloc, bytes, Some(bytes), false)?;
    let words = words.as_slice();
    Ok(command(
        alloc,
        words,
        caller,
        host,
        &mut readings,
        &mut inputs,
        out,
        err,
    ))
}

// Crashes and comes up again, with a daemon that has no children.
fn reboot(
    alloc: Global,
    pick: u64,
    fuse: Option<u64>,
    host: &mut MemoryHost,
    daemon: &mut Daemon,
) -> Result<(), AllocError>
    ensures up { OnOk result (HasRestarted pick fuse (machine host.old daemon.old) (machine host.new daemon.new)) }
    ensures unchanged { OnErr result (IsAsItWas (machine host.old daemon.old) (machine host.new daemon.new)) }
{
    host.reboot(alloc, pick, fuse)?;
    *daemon = Daemon::new(alloc, daemon.limit(), daemon.interval());
    Ok(())
}
