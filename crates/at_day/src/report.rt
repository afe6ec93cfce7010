//! What a day reports.
use crate::{Counts, EventReports};
use spool_store::StoreFault;

/// The report of each event, and what a recovery after the last one counts, or why it could not.
#[derive(Drop)]
pub struct DayReport {
    pub events: EventReports,
    pub counts: Result<Counts, StoreFault>,
}
