//! Simulated runs for tests: one made at once, and one whose events happen one by one.
ghost use Rattle.std.specs.Prelude.{IfOk, OnOk};
ghost use Rattle.host_calls.specs.Session.{IsOutside};
ghost use Rattle.memory_host.specs.Host.{memory_session};
ghost use Rattle.at_day.specs.Days.{IsMachineReady};
ghost use Rattle.at_day.specs.Machines.{machine};

use crate::tried_rules::Seen;
use at_day::{
    Event, EventReport, Events, INTERVAL, LIMIT, Made, are_day_events, day, is_day_event,
    make_events, one_event, spool_of_day,
};
use daemon_turn::Daemon;
use memory_host::{MemoryHost, Plan};
use std::alloc::{AllocError, Global};
use std::ops::Range;
use std::process::Abort;

/// How many events the day has that is tried.
pub const EVENTS: usize = 32;

/// Its events. No test rests on which they are, so no clause says it, and no proof computes them.
pub fn events(alloc: Global) -> Result<Events, AllocError> {
    let Made { events, .. } = make_events(alloc, EVENTS as u32)?;
    Ok(events)
}

/// The plan of its host, by which nothing fails.
pub fn plan(alloc: Global) -> Result<Plan, AllocError> {
    let Made { plan, .. } = make_events(alloc, EVENTS as u32)?;
    Ok(plan)
}

/// The spool of a simulated run before its first event, by this plan.
pub fn spool(alloc: Global, plan: Plan) -> Result<MemoryHost, AllocError>
    ensures { IfOk result (λ host. IsOutside (memory_session host)) }
{
    spool_of_day(alloc, plan)
}

/// The day of these events on a spool of this plan.
pub fn day_by(
    rt: &impl Abort,
    alloc: Global,
    events: &[Event],
    plan: Plan,
) -> Result<Seen, AllocError> {
    assert!(rt; are_day_events(events));
    let mut host = spool(alloc, plan)?;
    let report = day(alloc, events, &mut host)?;
    Ok(Seen::of(&host, report.events.as_slice(), report.counts))
}

/// A day on its way: its host and daemon, and what its events reported so far.
#[derive(Drop)]
pub struct Stepped {
    pub host: MemoryHost,
    pub daemon: Daemon,
    pub reports: Vec<EventReport>,
}

/// The day before its first event, on a spool of this plan.
pub fn open_day(alloc: Global, plan: Plan) -> Result<Stepped, AllocError>
    ensures { IfOk result (λ stepped. IsMachineReady (machine stepped.host stepped.daemon)) }
{
    let host = spool(alloc, plan)?;
    let daemon = Daemon::new(alloc, LIMIT, INTERVAL);
    Ok(Stepped {
        host,
        daemon,
        reports: Vec::new(alloc),
    })
}

/// Makes the events of these numbers happen, one after another.
pub fn each_event(
    rt: &impl Abort,
    alloc: Global,
    events: &[Event],
    numbers: Range<usize>,
    stepped: &mut Stepped,
) -> Result<(), AllocError>
    requires { IsMachineReady (machine stepped.old.host stepped.old.daemon) }
    ensures { OnOk result (IsMachineReady (machine stepped.new.host stepped.new.daemon)) }
{
    for number in numbers {
        if let Some(event) = events.get(number) {
            next_event(rt, alloc, event, stepped)?;
        }
    }
    Ok(())
}

/// Makes the event happen.
pub fn next_event(
    rt: &impl Abort,
    alloc: Global,
    event: &Event,
    stepped: &mut Stepped,
) -> Result<(), AllocError>
    requires { IsMachineReady (machine stepped.old.host stepped.old.daemon) }
    ensures { OnOk result (IsMachineReady (machine stepped.new.host stepped.new.daemon)) }
{
    assert!(rt; is_day_event(event));
    let report = one_event(alloc, event, &mut stepped.host, &mut stepped.daemon)?;
    stepped.reports.push(report)?;
    Ok(())
}

/// The day after its last event.
pub fn end_of_day(alloc: Global, stepped: &mut Stepped) -> Result<Seen, AllocError>
    requires { IsMachineReady (machine stepped.old.host stepped.old.daemon) }
{
    // A day without events recovers and counts, and does nothing else.
    let counts = day(alloc, &[], &mut stepped.host)?.counts;
    Ok(Seen::of(&stepped.host, stepped.reports.as_slice(), counts))
}
