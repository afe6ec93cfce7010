//! What happens on a machine where mail is sent too, and a crontab kept.
use at_day::Event;
use civil_minute::Zone;
use cron_text::Entries;
use job_script::Context;

/// What happens on a machine.
#[derive(Drop)]
pub enum Later {
    /// An event of a day.
    Day(Event),
    /// The post makes a session of mail.
    Post,
    /// A session of a crontab is made, at a second.
    Cron {
        context: Context,
        zone: Zone,
        entries: Entries,
        now: i64,
    },
}
