//! A simulated run of 32 events, tried: once for each place at which a call fails, the machine stops, or a start fails.
//! What is proved of every day is at `day`.
ghost use Rattle.std.specs.Prelude.{OnOk};
ghost use Rattle.at_day.specs.Days.{IsMachineReady};
ghost use Rattle.at_day.specs.Machines.{machine};

use crate::tried_days::{
    EVENTS, Stepped, day_by, each_event, end_of_day, events, next_event, open_day, plan,
};
use crate::tried_rules::Seen;
use at_day::Event;
use memory_host::{Failing, Part};
use std::alloc::{AllocError, Global};
use std::process::Abort;
use std::test::Fail;

// How many jobs the day submits.
const SUBMITTED: u32 = 12;

// How many starts it makes.
const STARTS: u64 = 8;

// How many calls it makes where none fails: this program's own number.
const CALLS: u64 = 649;

const REBOOT_BEFORE: usize = 16;

// What survives a reboot of what was pending: nothing, the first alone, and all.
const PICKS: [u64; 3] = [0, 1, u64::MAX];

#[test]
fn a_call_fails(rt: HostRuntime) -> Result<(), Fail> {
    for &part in &[Part::Nothing, Part::All] {
        let (places, broken) = failing_calls(&rt, rt.alloc(), part)?;
        kept_at_each(&rt, places, broken.as_slice());
    }
    Ok(())
}

// Each call was tried, and one more, and no rule is broken at any.
fn kept_at_each(rt: &impl Abort, places: u64, broken: &[u64]) {
    assert_eq!(rt; places, CALLS + 1);
    assert_eq!(rt; broken, [].as_slice());
}

// How many calls were tried until a day made fewer, and those at which a rule is broken. The recovery may fail whose last
// call it is.
fn failing_calls(
    rt: &impl Abort,
    alloc: Global,
    part: Part,
) -> Result<(u64, Vec<u64>), AllocError> {
    let events = events(alloc)?;
    let mut broken = Vec::new(alloc);
    for call in 0..u64::MAX {
        let seen = with_failing_call(rt, alloc, events.as_slice(), Failing { call, part })?;
        if seen.calls < call {
            return Ok((call, broken));
        }
        if !seen.keeps_rules(seen.calls == call + 1) {
            broken.push(call)?;
        }
    }
    Ok((u64::MAX, broken))
}

fn with_failing_call(
    rt: &impl Abort,
    alloc: Global,
    events: &[Event],
    failing: Failing,
) -> Result<Seen, AllocError> {
    let mut plan = plan(alloc)?;
    plan.failing.push(alloc, failing)?;
    day_by(rt, alloc, events, plan)
}

#[test]
fn the_machine_stops(rt: HostRuntime) -> Result<(), Fail> {
    let (places, broken) = fuses(&rt, rt.alloc())?;
    kept_at_each(&rt, places, broken.as_slice());
    let broken = picks(&rt, rt.alloc())?;
    assert_eq!(rt; broken.as_slice(), [].as_slice());
    Ok(())
}

// How many fuses of a reboot before event 0 were tried until a day made fewer calls, and those with which a rule is broken.
fn fuses(rt: &impl Abort, alloc: Global) -> Result<(u64, Vec<u64>), AllocError> {
    let events = events(alloc)?;
    let mut broken = Vec::new(alloc);
    for fuse in 0..u64::MAX {
        let seen = with_reboot(rt, alloc, events.as_slice(), 0, 0, Some(fuse))?;
        if seen.calls < fuse {
            return Ok((fuse, broken));
        }
        if !keeps_numbers(&seen) {
            broken.push(fuse)?;
        }
    }
    Ok((u64::MAX, broken))
}

// The picks of a reboot after event 15 with which a rule is broken.
fn picks(rt: &impl Abort, alloc: Global) -> Result<Vec<u64>, AllocError> {
    let events = events(alloc)?;
    let mut broken = Vec::new(alloc);
    for pick in PICKS {
        let seen = with_reboot(rt, alloc, events.as_slice(), REBOOT_BEFORE, pick, None)?;
        if !keeps_numbers(&seen) {
            broken.push(pick)?;
        }
    }
    Ok(broken)
}

// Whether the rules are kept, and no more numbers were drawn than jobs are submitted.
fn keeps_numbers(seen: &Seen) -> bool {
    seen.keeps_rules(false) && seen.last() <= SUBMITTED
}

// The day with a reboot of this pick and this fuse before the event of a number.
fn with_reboot(
    rt: &impl Abort,
    alloc: Global,
    events: &[Event],
    before: usize,
    pick: u64,
    fuse: Option<u64>,
) -> Result<Seen, AllocError> {
    let mut stepped = open_day(alloc, plan(alloc)?)?;
    over_reboot(rt, alloc, events, before, pick, fuse, &mut stepped)
}

fn over_reboot(
    rt: &impl Abort,
    alloc: Global,
    events: &[Event],
    before: usize,
    pick: u64,
    fuse: Option<u64>,
    stepped: &mut Stepped,
) -> Result<Seen, AllocError>
    requires { IsMachineReady (machine stepped.old.host stepped.old.daemon) }
{
    each_event(rt, alloc, events, 0..before, stepped)?;
    reboot(rt, alloc, pick, fuse, stepped)?;
    each_event(rt, alloc, events, before..EVENTS, stepped)?;
    end_of_day(alloc, stepped)
}

fn reboot(
    rt: &impl Abort,
    alloc: Global,
    pick: u64,
    fuse: Option<u64>,
    stepped: &mut Stepped,
) -> Result<(), AllocError>
    requires { IsMachineReady (machine stepped.old.host stepped.old.daemon) }
    ensures { OnOk result (IsMachineReady (machine stepped.new.host stepped.new.daemon)) }
{
    next_event(rt, alloc, &Event::Reboot { pick, fuse }, stepped)
}

#[test]
fn a_start_fails(rt: HostRuntime) -> Result<(), Fail> {
    let events = events(rt.alloc())?;
    for start in 0..STARTS + 1 {
        let seen = with_failing_start(&rt, rt.alloc(), events.as_slice(), start)?;
        let wanted = if start < STARTS { 1 } else { 0 };
        assert!(rt; seen.keeps_rules(false) && !seen.has_fault, "start {start}");
        assert!(rt; seen.not_started() == wanted, "start {start}");
    }
    Ok(())
}

fn with_failing_start(
    rt: &impl Abort,
    alloc: Global,
    events: &[Event],
    start: u64,
) -> Result<Seen, AllocError> {
    let mut plan = plan(alloc)?;
    plan.failing_starts.push(alloc, start)?;
    day_by(rt, alloc, events, plan)
}
