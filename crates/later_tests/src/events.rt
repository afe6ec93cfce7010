//! What happens on a day, and the spool on which it does.
ghost use Rattle.std.specs.Prelude.{IfOk};
ghost use Rattle.host_calls.specs.Session.{IsOutside};
ghost use Rattle.memory_host.specs.Host.{memory_session};

use at_day::Words;
use cron_text::{MAX_CRONTAB, read_crontab};
use host_calls::{Bytes, Name, Text};
use job_script::{Context, Variables};
use later_day::{Event, Later, Zone};
use memory_host::{Files, MemoryHost, Plan};
use std::alloc::{AllocError, Global};
use std::process::Abort;
use std::test::Fail;
use tool_output::Caller;

/// The first second of 2025 in UTC.
pub const FIRST: i64 = 1_735_689_600;

// The user `ann` at home.
fn ann(alloc: Global) -> Result<Context, AllocError> {
    Ok(Context {
        user: Text::of(alloc, "ann")?,
        directory: Text::of(alloc, "/home/ann")?,
        umask: 0o022,
        environment: Variables::new(alloc),
    })
}

/// What happens on a day: a job for this very minute, a session of a crontab, one of mail, a turn of the daemon, or a crash,
/// after which no call gets through from the fuse on.
#[derive(Clone, Copy)]
pub enum Step {
    At(i64),
    Cron(i64),
    Post,
    Turn(i64),
    Reboot(u64, Option<u64>),
}

/// The events of these steps.
pub fn events_of(rt: &impl Abort, alloc: Global, steps: &[Step]) -> Result<Vec<Later>, Fail> {
    let mut events = Vec::new(alloc);
    for step in steps {
        events.push(event_of(rt, alloc, step)?)?;
    }
    Ok(events)
}

fn event_of(rt: &impl Abort, alloc: Global, step: &Step) -> Result<Later, Fail> {
    match step {
        Step::At(now) => Ok(at_now(alloc, *now)?),
        Step::Cron(now) => cron(rt, alloc, *now),
        Step::Post => Ok(Later::Post),
        Step::Turn(now) => Ok(Later::Day(Event::Turn {
            now: *now,
            load: Some(0),
        })),
        Step::Reboot(pick, fuse) => Ok(Later::Day(Event::Reboot {
            pick: *pick,
            fuse: *fuse,
        })),
    }
}

// A job of `ann` is submitted for this very minute.
fn at_now(alloc: Global, now: i64) -> Result<Later, AllocError> {
    let mut words = Words::new(alloc);
    words.push(alloc, "at")?;
    words.push(alloc, "now")?;
    Ok(Later::Day(Event::Command {
        words,
        caller: Caller {
            context: ann(alloc)?,
            zone: Zone::Utc,
        },
        input: Bytes::of(alloc, b"echo hi\n")?,
        now,
    }))
}

// A session of a crontab, whose one entry is due in each minute.
fn cron(rt: &impl Abort, alloc: Global, now: i64) -> Result<Later, Fail> {
    let text = b"* * * * * backup\n".as_slice();
    assert!(rt; text.len() <= MAX_CRONTAB);
    let entries = read_crontab(alloc, text)?;
    Ok(Later::Cron {
        context: ann(alloc)?,
        zone: Zone::Utc,
        entries,
        now,
    })
}

/// A plan by which no call gets through from the fuse on.
pub fn fused(alloc: Global, fuse: u64) -> Plan {
    let mut plan = Plan::quiet(alloc);
    plan.fuse = Some(fuse);
    plan
}

/// A spool that everybody may use, with these files next to.
pub fn spool(
    rt: &impl Abort,
    alloc: Global,
    others: &[(&[u8], &[u8])],
    plan: Plan,
) -> Result<MemoryHost, AllocError>
    ensures { IfOk result (λ host. IsOutside (memory_session host)) }
{
    let mut files = Files::new(alloc);
    for (name, bytes) in others {
        files.put(alloc, Name::of(name).expect(rt, "a name"), bytes)?;
    }
    MemoryHost::make(alloc, files, plan)
}
