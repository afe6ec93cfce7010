//! What an event reports.
use at_day::EventReport;
use cron_session::CronReport;
use mail_session::PostReport;

/// What an event reports, of any kind.
#[derive(Drop)]
pub enum LaterEntry {
    Day(EventReport),
    Post(PostReport),
    Cron(CronReport),
}
