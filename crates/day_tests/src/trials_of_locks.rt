//! A simulated run of 32 events, tried once for each event that finds the lock taken.
ghost use Rattle.std.specs.Prelude.{OnOk};
ghost use Rattle.at_day.specs.Days.{IsMachineReady};
ghost use Rattle.at_day.specs.Machines.{machine};

use crate::tried_days::{EVENTS, Stepped, each_event, end_of_day, events, open_day, plan};
use crate::tried_rules::{are_alike_but, are_same_spools};
use at_day::Event;
use memory_host::Plan;
use std::alloc::{AllocError, Global};
use std::process::Abort;
use std::test::Fail;

#[test]
fn an_event_finds_the_lock_taken(rt: HostRuntime) -> Result<(), Fail> {
    let events = events(rt.alloc())?;
    // The last event is a reboot, which enters no session.
    for number in 0..EVENTS - 1 {
        let is_as_without = is_as_without(&rt, rt.alloc(), events.as_slice(), number)?;
        assert!(rt; is_as_without, "event {number}");
    }
    Ok(())
}

// Whether a day on which the event of this number finds the lock taken keeps the rules, and is as the day without that
// event, on which nothing fails.
fn is_as_without(
    rt: &impl Abort,
    alloc: Global,
    events: &[Event],
    number: usize,
) -> Result<bool, AllocError> {
    let mut without = open_day(alloc, plan(alloc)?)?;
    beside(rt, alloc, events, number, &mut without)
}

fn beside(
    rt: &impl Abort,
    alloc: Global,
    events: &[Event],
    number: usize,
    without: &mut Stepped,
) -> Result<bool, AllocError>
    requires { IsMachineReady (machine without.old.host without.old.daemon) }
{
    let plan = taking(alloc, calls_before(rt, alloc, events, number, without)?)?;
    let mut with = open_day(alloc, plan)?;
    to_their_ends(rt, alloc, events, number, &mut with, without)
}

// How many calls were made before the event of this number: that of its `enter` is the next.
fn calls_before(
    rt: &impl Abort,
    alloc: Global,
    events: &[Event],
    number: usize,
    stepped: &mut Stepped,
) -> Result<u64, AllocError>
    requires { IsMachineReady (machine stepped.old.host stepped.old.daemon) }
    ensures { OnOk result (IsMachineReady (machine stepped.new.host stepped.new.daemon)) }
{
    each_event(rt, alloc, events, 0..number, stepped)?;
    Ok(stepped.host.calls())
}

// The plan of the day, by which this call finds the lock taken.
fn taking(alloc: Global, call: u64) -> Result<Plan, AllocError> {
    let mut plan = plan(alloc)?;
    plan.taken.push(alloc, call)?;
    Ok(plan)
}

// Makes the events from this number on happen on both days, one after another. The spools are the same before and after
// each of them.
fn each_on_both(
    rt: &impl Abort,
    alloc: Global,
    events: &[Event],
    from: usize,
    one: &mut Stepped,
    other: &mut Stepped,
) -> Result<(), AllocError>
    requires one { IsMachineReady (machine one.old.host one.old.daemon) }
    requires other { IsMachineReady (machine other.old.host other.old.daemon) }
    ensures one { OnOk result (IsMachineReady (machine one.new.host one.new.daemon)) }
    ensures other { OnOk result (IsMachineReady (machine other.new.host other.new.daemon)) }
{
    assert!(rt; are_same_spools(alloc, &one.host, &other.host)?);
    for number in from..EVENTS {
        each_event(rt, alloc, events, number..number + 1, one)?;
        each_event(rt, alloc, events, number..number + 1, other)?;
        assert!(rt; are_same_spools(alloc, &one.host, &other.host)?);
    }
    Ok(())
}

// Both days to their ends: the one from its beginning, the other from the event of this number, which it leaves out.
fn to_their_ends(
    rt: &impl Abort,
    alloc: Global,
    events: &[Event],
    number: usize,
    with: &mut Stepped,
    without: &mut Stepped,
) -> Result<bool, AllocError>
    requires with { IsMachineReady (machine with.old.host with.old.daemon) }
    requires without { IsMachineReady (machine without.old.host without.old.daemon) }
{
    let next = number.saturating_add(1);
    each_event(rt, alloc, events, 0..next, with)?;
    each_on_both(rt, alloc, events, next, with, without)?;
    let (ended, other) = (end_of_day(alloc, with)?, end_of_day(alloc, without)?);
    Ok(
        ended.keeps_rules(false)
            && !other.has_fault
            && ended.counts_as(&other)
            && are_alike_but(number, with.reports.as_slice(), without.reports.as_slice()),
    )
}
