//! The rules that a day of a test keeps, and whether two days are alike.
use at_day::{Counts, EventReport};
use daemon_turn::TurnEnd;
use host_calls::{Handed, StoreFault};
use listing_text::Cause;
use memory_host::MemoryHost;
use std::alloc::{AllocError, Global};

/// What is seen of a day after its last event.
#[derive(Clone, Copy)]
pub struct Seen {
    /// What the recovery after them counts, where it does.
    pub counts: Option<Counts>,
    /// How many calls were made, with those of the recovery.
    pub calls: u64,
    /// Whether an event ends in a fault: a command that was neither done nor refused, or a turn that was not done.
    pub has_fault: bool,
    has_damage: bool,
    is_given_twice: bool,
    // Whether a call of the recovery failed.
    is_uncounted: bool,
}

impl Seen {
    /// What is seen of this host and these reports.
    pub fn of(
        host: &MemoryHost,
        reports: &[EventReport],
        counts: Result<Counts, StoreFault>,
    ) -> Seen {
        Seen {
            counts: counts.ok(),
            calls: host.calls(),
            has_fault: reports.iter().any(is_fault),
            has_damage: reports.iter().any(reports_damage),
            is_given_twice: is_given_twice(host.handed()),
            is_uncounted: matches!(counts, Err(StoreFault::FileFault)),
        }
    }

    /// Whether the recovery counts, or may fail and did, no job was started twice, and no event reports a damage.
    pub fn keeps_rules(&self, may_fail: bool) -> bool {
        let counts = self.counts.is_some() || may_fail && self.is_uncounted;
        counts && !self.is_given_twice && !self.has_damage
    }

    /// The number that was drawn last, where the recovery counts.
    pub fn last(&self) -> u32 {
        match self.counts {
            Some(counts) => counts.last,
            None => 0,
        }
    }

    /// How many jobs were not started, where the recovery counts.
    pub fn not_started(&self) -> u32 {
        match self.counts {
            Some(counts) => counts.not_started,
            None => 0,
        }
    }

    /// Whether both recoveries count, and the same.
    pub fn counts_as(&self, other: &Seen) -> bool {
        match (self.counts, other.counts) {
            (Some(counts), Some(others)) => counts == others,
            _ => false,
        }
    }
}

// Whether a number occurs twice among the scripts that were started.
fn is_given_twice(handed: &[Handed]) -> bool {
    handed.iter().enumerate().any(|(index, one)| {
        handed[..index]
            .iter()
            .any(|earlier| earlier.number == one.number)
    })
}

fn reports_damage(report: &EventReport) -> bool {
    match report {
        EventReport::Command { status, .. } => matches!(status.cause, Cause::Damaged(_)),
        EventReport::Turn(turned) => matches!(turned.end, TurnEnd::Damaged(_)),
        EventReport::Rebooted => false,
    }
}

fn is_fault(report: &EventReport) -> bool {
    match report {
        EventReport::Command { status, .. } => {
            !matches!(status.cause, Cause::Done | Cause::Refused(_))
        }
        EventReport::Turn(turned) => !matches!(turned.end, TurnEnd::Done),
        EventReport::Rebooted => false,
    }
}

/// Whether the event of this number found the lock taken, and all other reports are alike.
pub fn are_alike_but(number: usize, reports: &[EventReport], others: &[EventReport]) -> bool {
    number < reports.len()
        && number <= others.len()
        && is_busy(&reports[number])
        && are_alike(&reports[..number], &others[..number])
        && are_alike(&reports[number + 1..], &others[number..])
}

// Whether the event found the lock taken.
fn is_busy(report: &EventReport) -> bool {
    match report {
        EventReport::Command { status, .. } => matches!(status.cause, Cause::Busy),
        EventReport::Turn(turned) => matches!(turned.end, TurnEnd::Busy),
        EventReport::Rebooted => false,
    }
}

// Whether the reports are alike, one by one.
fn are_alike(reports: &[EventReport], others: &[EventReport]) -> bool {
    reports.len() == others.len()
        && reports
            .iter()
            .zip(others)
            .all(|(report, other)| is_alike(report, other))
}

// Whether both are reports of a command with one status that put the same, of a turn that was done in the same steps, or
// of a reboot.
fn is_alike(report: &EventReport, other: &EventReport) -> bool {
    match (report, other) {
        (
            EventReport::Command { status, out, err },
            EventReport::Command {
                status: other_status,
                out: other_out,
                err: other_err,
            },
        ) => {
            status.code == other_status.code
                && out.as_slice() == other_out.as_slice()
                && err.as_slice() == other_err.as_slice()
        }
        (EventReport::Turn(turned), EventReport::Turn(other)) => {
            matches!(turned.end, TurnEnd::Done)
                && matches!(other.end, TurnEnd::Done)
                && turned.steps.as_slice() == other.steps.as_slice()
        }
        (EventReport::Rebooted, EventReport::Rebooted) => true,
        _ => false,
    }
}

/// Whether both spools have the same files, handed the same over, and asked and were answered the same.
pub fn are_same_spools(
    alloc: Global,
    one: &MemoryHost,
    other: &MemoryHost,
) -> Result<bool, AllocError> {
    let names = one.names_now(alloc)?;
    let others = other.names_now(alloc)?;
    Ok(
        names.as_slice() == others.as_slice()
            && names
                .iter()
                .all(|name| one.reading(name) == other.reading(name))
            && are_same_handed(one.handed(), other.handed())
            && one.asked() == other.asked(),
    )
}

fn are_same_handed(handed: &[Handed], others: &[Handed]) -> bool {
    handed.len() == others.len()
        && handed.iter().zip(others).all(|(one, other)| {
            one.number == other.number
                && one.nice == other.nice
                && one.started == other.started
                && one.script.as_slice() == other.script.as_slice()
        })
}
