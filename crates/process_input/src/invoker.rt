//! Who calls a tool, and what a job takes over from them.
ghost use Rattle.std.specs.Prelude.{◌<◌};

use crate::caller_with::caller_by;
use crate::environment::{environment_variables, variable};
use crate::umask::umask_in;
use crate::user::calling_user;
use caller_environment::{CallerSettings, MAX_ZONE_FILE, rule_in, zone_file};
use caller_rules::CallingUser;
use host_calls::Text;
use std::alloc::AllocError;
use std::fs::File;
use std::io::ErrorKind;
use std::{env, fs, str};
use tool_output::Caller;

/// What the system reports of this process.
pub const PROCESS_STATUS: &str = "/proc/self/status";

// The umask of a process that does not tell its own.
const USUAL_UMASK: u16 = 0o022;

/// Who calls a tool.
#[derive(Drop)]
pub struct Invoker {
    pub user: CallingUser,
    pub caller: Caller,
    ghost umask: { caller.context.umask < 512 },
}

/// Who calls this process: `PWD` is the directory in which it is, and `LOGNAME` the name of its user. All other variables
/// are those of the process; times are read by the rule of the zone that `TZ` names. None where the status of the process can't be read.
pub fn invoker_of(rt: &HostRuntime) -> Result<Option<Invoker>, AllocError> {
    let Some(status) = status_of_process(rt) else {
        return Ok(None);
    };
    let user = calling_user(rt, status.as_slice())?;
    let umask = umask_by(status.as_slice());
    let settings = CallerSettings {
        directory: directory_of(rt)?,
        user: Text::of(rt.alloc(), user.name.as_str())?,
        zone: zone_rule(rt)?,
    };
    let variables = environment_variables(rt)?;
    let zone = variable(rt, "TZ")?;
    let caller = caller_by(rt.alloc(), &variables, settings, zone.as_deref(), umask)?;
    Ok(Some(Invoker { user, caller }))
}

/// The user of this process. None where its status can't be read.
pub fn user_of_process(rt: &HostRuntime) -> Result<Option<CallingUser>, AllocError> {
    match status_of_process(rt) {
        Some(status) => Ok(Some(calling_user(rt, status.as_slice())?)),
        None => Ok(None),
    }
}

// What the system reports of this process: nothing where there is no `/proc`. None where it can't be read.
fn status_of_process(rt: &HostRuntime) -> Option<Vec<u8>> {
    match fs::read(rt, PROCESS_STATUS) {
        Ok(status) => Some(status),
        Err(error) if error.kind() == ErrorKind::NotFound => Some(Vec::new(rt.alloc())),
        Err(_) => None,
    }
}

fn umask_by(status: &[u8]) -> u16
    /// The umask is below 512.
    ensures { result < 512 }
{
    match str::from_utf8(status) {
        Ok(status) => umask_in(status).unwrap_or(USUAL_UMASK),
        Err(_) => USUAL_UMASK,
    }
}

// The directory in which this process is. One that is gone has the empty text, which no job takes.
fn directory_of(rt: &HostRuntime) -> Result<Text, AllocError> {
    match env::current_dir(rt) {
        Ok(directory) => Ok(Text::from(directory.into_string())),
        Err(_) => Text::of(rt.alloc(), ""),
    }
}

// The rule of the zone that `TZ` names, where a file has it.
fn zone_rule(rt: &HostRuntime) -> Result<Option<Text>, AllocError> {
    let zone = variable(rt, "TZ")?;
    let directory = variable(rt, "TZDIR")?;
    let Some(path) = zone_file(rt.alloc(), zone.as_deref(), directory.as_deref())? else {
        return Ok(None);
    };
    let Some(bytes) = plain_file(rt, path.as_str()) else {
        return Ok(None);
    };
    match rule_in(bytes.as_slice()).and_then(|rule| str::from_utf8(rule).ok()) {
        Some(rule) => Ok(Some(Text::of(rt.alloc(), rule)?)),
        None => Ok(None),
    }
}

// The bytes of a plain file that is no longer than one of zones.
fn plain_file(rt: &HostRuntime, path: &str) -> Option<Vec<u8>> {
    let found = fs::metadata(rt, path).ok()?;
    if !found.is_file() || found.len() > MAX_ZONE_FILE as u64 {
        return None;
    }
    fs::read(rt, path).ok()
}
