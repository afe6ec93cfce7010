//! What a day reports on which mail is sent too.
ghost use Rattle.std.specs.Prelude.{◌≡◌};

use crate::LaterEntry;
use std::marker::Model;

/// The entry of each event, in the order of these. A contract sees them as a list.
#[derive(Drop)]
pub struct LaterReport {
    inner: Vec<LaterEntry>,
}

impl Model for LaterReport {
    ghost use Rattle.std.specs.Prelude.{List};
    ghost use Rattle.later_day.specs.declared.entry.LaterEntry.{LaterEntry};

    ghost Value = { List LaterEntry };

    ghost view = { λ report. report.inner.items };
}

impl LaterReport {
    /// The entries, in order.
    pub fn as_slice(&self) -> &[LaterEntry]
        ensures { result.now ≡ self.now }
    {
        self.inner.as_slice()
    }
}

impl From<Vec<LaterEntry>> for LaterReport {
    ghost from_gives = { λ entries made. made ≡ entries.items };

    fn from(entries: Vec<LaterEntry>) -> Self {
        LaterReport { inner: entries }
    }
}
