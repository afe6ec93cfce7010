//! What the events of a day tell, each in a line.
ghost use Rattle.host_calls.specs.Session.{IsOutside};
ghost use Rattle.memory_host.specs.Host.{memory_session};

use daemon_turn::{TurnEnd, TurnReport, TurnStep};
use later_day::{
    CronEnd, EventReport, Later, LaterEntry, LaterReport, are_later_events, later_day,
};
use memory_host::MemoryHost;
use std::alloc::{AllocError, Global};
use std::process::Abort;

/// The mail program.
const SENDMAIL: &str = "/usr/sbin/sendmail";

/// Makes the events happen.
pub fn day_on(
    rt: &impl Abort,
    alloc: Global,
    events: &[Later],
    host: &mut MemoryHost,
) -> Result<LaterReport, AllocError>
    requires { IsOutside (memory_session host.old) }
    ensures { IsOutside (memory_session host.new) }
{
    let may_come = are_later_events(events);
    assert!(rt; may_come);
    later_day(alloc, events, SENDMAIL, host)
}

/// Makes the events happen, and tells a line of each: how it ended, and the numbers of what it accepted or started.
pub fn told(
    rt: &impl Abort,
    alloc: Global,
    events: &[Later],
    host: &mut MemoryHost,
) -> Result<String, AllocError>
    requires { IsOutside (memory_session host.old) }
    ensures { IsOutside (memory_session host.new) }
{
    let report = day_on(rt, alloc, events, host)?;
    let lines = lines_of(alloc, report.as_slice());
    drop(report);
    lines
}

fn lines_of(alloc: Global, entries: &[LaterEntry]) -> Result<String, AllocError> {
    let mut lines = String::new(alloc);
    for entry in entries {
        add_entry(alloc, entry, &mut lines)?;
        lines.push_str("\n")?;
    }
    Ok(lines)
}

fn add_entry(alloc: Global, entry: &LaterEntry, line: &mut String) -> Result<(), AllocError> {
    match entry {
        LaterEntry::Day(report) => add_event(alloc, report, line),
        LaterEntry::Post(report) => {
            line.push_str("post ")?;
            line.push_str(of_turn(&report.end))?;
            add_numbers(alloc, report.sent.as_slice(), line)
        }
        LaterEntry::Cron(report) => {
            line.push_str("cron ")?;
            line.push_str(of_cron(&report.end))?;
            add_numbers(alloc, report.numbers.as_slice(), line)
        }
    }
}

fn add_event(alloc: Global, report: &EventReport, line: &mut String) -> Result<(), AllocError> {
    match report {
        EventReport::Command { status, .. } => {
            line.push_str("command")?;
            add_number(alloc, u32::from(status.code), line)
        }
        EventReport::Turn(turned) => add_turn(alloc, turned, line),
        EventReport::Rebooted => {
            line.push_str("rebooted")?;
            Ok(())
        }
    }
}

fn add_turn(alloc: Global, report: &TurnReport, line: &mut String) -> Result<(), AllocError> {
    line.push_str("turn ")?;
    line.push_str(of_turn(&report.end))?;
    for step in report.steps.as_slice() {
        match step {
            TurnStep::HandedOver(number, _) => add_number(alloc, *number, line)?,
            TurnStep::Ended(_, _) => line.push_str(" ended")?,
            TurnStep::Interrupted(_) => line.push_str(" given-up")?,
            TurnStep::Forgotten(_) => line.push_str(" forgotten")?,
        }
    }
    Ok(())
}

fn add_numbers(alloc: Global, numbers: &[u32], line: &mut String) -> Result<(), AllocError> {
    for number in numbers {
        add_number(alloc, *number, line)?;
    }
    Ok(())
}

fn add_number(alloc: Global, number: u32, line: &mut String) -> Result<(), AllocError> {
    let text = format!(in alloc; " {number}")?;
    line.push_str(text.as_str())?;
    Ok(())
}

fn of_turn(end: &TurnEnd) -> &'static str {
    match end {
        TurnEnd::Done => "done",
        TurnEnd::Busy => "busy",
        TurnEnd::FileFault => "fault",
        TurnEnd::Damaged(_) => "damaged",
        TurnEnd::Memory => "memory",
    }
}

fn of_cron(end: &CronEnd) -> &'static str {
    match end {
        CronEnd::Done => "done",
        CronEnd::Busy => "busy",
        CronEnd::FileFault => "fault",
        CronEnd::Damaged(_) => "damaged",
        CronEnd::QueueFull => "full",
        CronEnd::NumbersUsedUp => "used-up",
        CronEnd::Memory => "memory",
    }
}
