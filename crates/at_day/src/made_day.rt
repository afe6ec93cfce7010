//! Days that are made from a number.
ghost use Rattle.std.specs.Prelude.{◌≡◌, ◌≤◌, IfOk, Ok};
ghost use Rattle.std.specs.List.{list_any};
ghost use Rattle.tool_output.specs.Sinks.{sink_at};
ghost use Rattle.at_day.specs.Plans.{made_plan};
ghost use Rattle.memory_host.specs.Host.{IsNew};
ghost use Rattle.at_day.specs.MadeDays.{ComesTo, deny_alone, lacks_memory};
ghost use Rattle.at_day.specs.inside.DayParts.{IsCountedOrMemory, PutsDay};

use crate::lines::day_lines;
use crate::{Counts, EventReport, Made, day, make_events};
use at_words::MAX_EVENTS;
use command_rules::deny_name;
use daemon_turn::TurnEnd;
use host_calls::{Sink, SinkFault};
use listing_text::Cause;
use memory_host::{Files, MemoryHost, Plan};
use spool_store::StoreFault;
use std::alloc::{AllocError, Global};
use tool_output::put_lines;

/// Makes the day of so many events, and puts the lines of its result.
pub(crate) fn put_day<O: Sink>(alloc: Global, count: u32, out: &mut O) -> Result<(), SinkFault>
    requires { count ≤ MAX_EVENTS }
    ensures made_as { (O.outlet out.new).made_as ≡ (O.outlet out.old).made_as }
    ensures puts { PutsDay O.tells count
        (sink_at (O.content out.old) (O.outlet out.old)) (sink_at (O.content out.new) (O.outlet out.new)) result }
{
    let counts = made_day(alloc, count)?;
    let lines = day_lines(alloc, count, &counts)?;
    put_lines(alloc, lines.as_slice(), out)
}

// What the simulated run of so many events comes to. There is nothing to tell of a day that an event of it ran out of
// memory in.
fn made_day(alloc: Global, count: u32) -> Result<Counts, AllocError>
    requires { count ≤ MAX_EVENTS }
    ensures { IfOk result (ComesTo count) }
{
    let Made { events, plan } = make_events(alloc, count)?;
    let mut host = spool_of_day(alloc, plan)?;
    let report = day(alloc, events.as_slice(), &mut host)?;
    let counts = sound_counts(report.counts)?;
    if lack_memory(report.events.as_slice()) {
        return Err(AllocError);
    }
    Ok(counts)
}

/// A spool directory with an empty list of users who may not use `at`, and no other file.
pub fn spool_of_day(alloc: Global, plan: Plan) -> Result<MemoryHost, AllocError>
    ensures { IfOk result (IsNew deny_alone plan) }
{
    let mut files = Files::new(alloc);
    files.put(alloc, deny_name(), b"")?;
    MemoryHost::make(alloc, files, plan)
}

// The counts, of which an out-of-memory error alone can be in the way.
fn sound_counts(counts: Result<Counts, StoreFault>) -> Result<Counts, AllocError>
    requires { IsCountedOrMemory counts }
    ensures { IfOk result (λ found. counts ≡ Ok found) }
{
    match counts {
        Ok(found) => Ok(found),
        Err(StoreFault::Memory) => Err(AllocError),
        Err(StoreFault::FileFault) => unreachable!(),
        Err(StoreFault::Damaged(_)) => unreachable!(),
        Err(StoreFault::QueueFull) => unreachable!(),
        Err(StoreFault::NumbersUsedUp) => unreachable!(),
    }
}

// Whether an event ran out of memory.
fn lack_memory(reports: &[EventReport]) -> bool
    ensures { result ≡ list_any lacks_memory reports.now }
{
    reports.iter().any(lacks_memory)
}

// Whether the event ran out of memory.
fn lacks_memory(report: &EventReport) -> bool
    ensures { result ≡ lacks_memory report.now }
{
    match report {
        EventReport::Command { status, .. } => matches!(status.cause, Cause::Memory),
        EventReport::Turn(turned) => matches!(turned.end, TurnEnd::Memory),
        EventReport::Rebooted => false,
    }
}
