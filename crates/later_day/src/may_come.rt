//! Which events may come.
ghost use Rattle.std.specs.Prelude.{◌↔◌, ◌≤◌, All, IsTrue, length};
ghost use Rattle.civil_minute.specs.Zone.{IsReadable};
ghost use Rattle.cron_text.specs.declared.crontab.TheConstants.{MAX_CRONTAB};
ghost use Rattle.later_day.specs.LaterEventEffects.{IsCronEvent, IsLaterEvent, cron_of_event};

use crate::Later;
use at_day::is_day_event;
use civil_minute::Zone;
use cron_text::{CronEntry, Entries, MAX_CRONTAB};
use host_calls::is_clock_second;
use job_script::{Context, check};

/// Whether each of the events may come.
pub fn are_later_events(events: &[Later]) -> bool
    ensures { IsTrue result ↔ All IsLaterEvent events.now }
{
    for event in events {
        if !is_later_event(event) {
            return false;
        }
    }
    true
}

/// Whether the event may come: a day can have it, it is a session of mail, or one of a crontab that may be made.
pub fn is_later_event(event: &Later) -> bool
    ensures { IsTrue result ↔ IsLaterEvent event.now }
{
    match event {
        Later::Day(event) => is_day_event(event),
        Later::Post => true,
        Later::Cron {
            context,
            zone,
            entries,
            now,
        } => is_cron_event(context, zone, entries, *now),
    }
}

// Whether a session of a crontab may be made.
fn is_cron_event(context: &Context, zone: &Zone, entries: &Entries, now: i64) -> bool
    ensures { IsTrue result ↔ IsCronEvent (cron_of_event context.now zone.now entries.now now) }
{
    check(context).is_ok()
        && context.umask < 512
        && is_readable(zone)
        && is_clock_second(now)
        && are_of_a_crontab(entries.as_slice())
}

// Whether the zone could be read.
fn is_readable(zone: &Zone) -> bool
    ensures { IsTrue result ↔ IsReadable zone.now }
{
    match zone {
        Zone::Utc => true,
        Zone::Rules(_) => true,
        Zone::Unreadable => false,
    }
}

// Whether the command of each entry is as short as one of a crontab.
fn are_of_a_crontab(entries: &[CronEntry]) -> bool
    ensures { IsTrue result ↔ All (λ entry. length entry.command ≤ MAX_CRONTAB) entries.now }
{
    for entry in entries {
        if entry.command.as_slice().len() > MAX_CRONTAB {
            return false;
        }
    }
    true
}
