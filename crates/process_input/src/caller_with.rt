//! The caller by what is set of their environment.
ghost use Rattle.std.specs.Prelude.{◌≡◌, ◌<◌, IfOk, option_copied};
ghost use Rattle.caller_environment.specs.Variables.{job_variables};
ghost use Rattle.civil_minute.specs.ZoneText.{IsZoneOf};
ghost use Rattle.process_input.specs.Zones.{named_zone, zone_text};

use caller_environment::{CallerSettings, is_utc_name, job_variables};
use civil_minute::{Zone, zone_of};
use host_calls::Text;
use job_script::Context;
use std::alloc::{AllocError, Global};
use tool_output::Caller;

/// The caller of a process with these variables, of whom this is set: what a job takes over of their environment, and the
/// zone in which times are read. The zone is the rule that is set, or else the one that TZ names.
pub fn caller_by(
    alloc: Global,
    variables: &[(Text, Text)],
    settings: CallerSettings,
    zone: Option<&str>,
    umask: u16,
) -> Result<Caller, AllocError>
    /// A job has the variables of the process with `PWD` and `LOGNAME` set; its user, directory and umask are those set.
    ensures environment { IfOk result (λ caller.
        caller.context.environment ≡ job_variables settings variables.now) }
    ensures user { IfOk result (λ caller. caller.context.user ≡ settings.user) }
    ensures directory { IfOk result (λ caller. caller.context.directory ≡ settings.directory) }
    ensures umask { IfOk result (λ caller. caller.context.umask ≡ umask) }
    /// Times are read in the zone of the rule that is set, or else of `TZ`, whose names of UTC need no rule.
    ensures zone { IfOk result (λ caller. IsZoneOf (zone_text settings.zone (option_copied zone.entry)) caller.zone) }
{
    let environment = job_variables(alloc, variables, &settings)?;
    let zone = zone_by(alloc, &settings.zone, zone)?;
    let CallerSettings {
        directory,
        user,
        zone: _,
    } = settings;
    let context = Context {
        user,
        directory,
        umask,
        environment,
    };
    Ok(Caller { context, zone })
}

// The zone that the rule names, or else the value of TZ.
fn zone_by(alloc: Global, rule: &Option<Text>, zone: Option<&str>) -> Result<Zone, AllocError>
    ensures { IfOk result (IsZoneOf (zone_text rule.now (option_copied zone.entry))) }
{
    match (rule, zone) {
        (Some(rule), _) => zone_of(alloc, Some(rule.as_str())),
        (None, Some(zone)) => zone_of(alloc, Some(named_zone(zone))),
        (None, None) => zone_of(alloc, Some("")),
    }
}

// The text that names the zone of a value of TZ.
fn named_zone(value: &str) -> &str
    ensures { result.now ≡ named_zone value.now }
{
    if is_utc_name(value) { "UTC" } else { value }
}
