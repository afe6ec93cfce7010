//! A day: events on one machine, one after the other.
ghost use Rattle.std.specs.Prelude.{◌≡◌, true, IfOk, OnErr};
ghost use Rattle.std.specs.List.{list_all};
ghost use Rattle.at_day.specs.EventsDays.{is_day_event};
ghost use Rattle.host_calls.specs.Session.{IsOutside};
ghost use Rattle.memory_host.specs.Host.{memory_session};
ghost use Rattle.at_day.specs.Days.{IsDay, IsDayCut, IsDayOf, first_machine};

use crate::count_jobs::counts;
use crate::{DayReport, Event, EventReport, EventReports, one_event};
use daemon_turn::Daemon;
use memory_host::MemoryHost;
use std::alloc::{AllocError, Global};

/// The limit of the load in hundredths that the daemon of a day has.
pub const LIMIT: u32 = 150;

/// The seconds between two starts in batch queues that it has.
pub const INTERVAL: u32 = 60;

/// Makes the events happen, one after the other, with a daemon that has no children at first, and counts what they
/// leave.
pub fn day(alloc: Global, events: &[Event], host: &mut MemoryHost) -> Result<DayReport, AllocError>
    requires of_day { list_all is_day_event events.now ≡ true }
    requires outside { IsOutside (memory_session host.old) }
    ensures outside { IsOutside (memory_session host.new) }
    ensures day { IfOk result (IsDay events.now host.old host.new) }
    ensures cut { OnErr result (IsDayCut events.now (first_machine host.old) host.new) }
{
    let reports = event_reports(alloc, events, host)?;
    Ok(DayReport {
        events: EventReports::from(reports),
        counts: counts(alloc, host),
    })
}

// The reports of the events.
fn event_reports(
    alloc: Global,
    events: &[Event],
    host: &mut MemoryHost,
) -> Result<Vec<EventReport>, AllocError>
    requires of_day { list_all is_day_event events.now ≡ true }
    requires outside { IsOutside (memory_session host.old) }
    ensures outside { IsOutside (memory_session host.new) }
    ensures day { IfOk result (λ reports. IsDayOf events.now reports.items (first_machine host.old) host.new) }
    ensures cut { OnErr result (IsDayCut events.now (first_machine host.old) host.new) }
{
    let mut daemon = Daemon::new(alloc, LIMIT, INTERVAL);
    let mut reports = Vec::new(alloc);
    for event in events {
        // Room comes first, so that each event that happens can be reported.
        reports.reserve(1)?;
        let report = one_event(alloc, event, host, &mut daemon)?;
        reports.push_reserved(report);
    }
    Ok(reports)
}
