//! The zone of a caller.
ghost use Rattle.std.specs.Prelude.{◌≡◌, ◌↔◌, [], IsOk, IfOk, IsTrue, unwrap_or};
ghost use Rattle.std.specs.Option.{option_copied};
ghost use Rattle.jiff.specs.Words.{plain_zone};
ghost use Rattle.civil_minute.specs.Zone.{IsReadable, is_unreadable, rules_of};
ghost use Rattle.civil_minute.specs.ZoneText.{IsZoneOf, NamesUtc};

use jiff::tz::TimeZone;
use std::alloc::{AllocError, Global};

/// The zone in which a caller's times are meant and shown. A rule borrows from no zone database.
#[derive(Clone, Copy)]
pub enum Zone {
    Utc,
    Rules(TimeZone<'static>),
    Unreadable,
}

/// The zone that the variable TZ names by this text, or by being absent. It takes no memory yet.
pub fn zone_of(_alloc: Global, text: Option<&str>) -> Result<Zone, AllocError>
    ensures answers { IsOk result }
    ensures zone { IfOk result (IsZoneOf (unwrap_or (option_copied text.entry) [])) }
{
    match text {
        None => Ok(Zone::Utc),
        Some(text) => Ok(zone_named(text)),
    }
}

fn zone_named(text: &str) -> Zone
    ensures { IsZoneOf text.now result }
{
    if names_utc(text) {
        return Zone::Utc;
    }
    match TimeZone::posix(text) {
        Ok(rules) => Zone::Rules(rules),
        Err(_) => Zone::Unreadable,
    }
}

fn names_utc(text: &str) -> bool
    ensures { IsTrue result ↔ NamesUtc text.now }
{
    text.is_empty() || text == "UTC"
}

/// Whether TZ named no zone.
pub fn is_unreadable(zone: &Zone) -> bool
    ensures { result ≡ is_unreadable zone.now }
{
    matches!(zone, Zone::Unreadable)
}

/// The rules by which a zone that could be read gives the time.
pub(crate) fn time_zone(zone: &Zone) -> TimeZone<'static>
    requires { IsReadable zone.now }
    ensures { plain_zone result ≡ rules_of zone.now }
{
    match zone {
        Zone::Rules(rules) => *rules,
        Zone::Utc | Zone::Unreadable => TimeZone::UTC,
    }
}
