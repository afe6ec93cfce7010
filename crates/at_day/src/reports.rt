//! The reports of a day.
ghost use Rattle.std.specs.Prelude.{◌≡◌};

use crate::EventReport;
use std::marker::Model;

/// The reports of events, in the order of these. A contract sees them as a list.
#[derive(Drop)]
pub struct EventReports {
    inner: Vec<EventReport>,
}

impl Model for EventReports {
    ghost use Rattle.std.specs.Prelude.{List};
    ghost use Rattle.at_day.specs.declared.events_report.EventReport.{EventReport};

    ghost Value = { List EventReport };

    ghost view = { λ reports. reports.inner.items };
}

impl EventReports {
    /// The reports, in order.
    pub fn as_slice(&self) -> &[EventReport]
        ensures { result.now ≡ self.now }
    {
        self.inner.as_slice()
    }
}

impl From<Vec<EventReport>> for EventReports {
    ghost from_gives = { λ reports made. made ≡ reports.items };

    fn from(reports: Vec<EventReport>) -> Self {
        EventReports { inner: reports }
    }
}
