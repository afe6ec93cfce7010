//! The umask of this process.
ghost use Rattle.std.specs.Prelude.{◌<◌, IfSome, MatchOption};
ghost use Rattle.process_input.specs.Umask.{HasNoUmaskLine, IsUmaskLine, TellsNoUmask, TellsUmask};

use std::fs;

// The greatest umask, and the one of a process that does not tell its own.
const LAST_UMASK: u16 = 0o777;

const USUAL_UMASK: u16 = 0o022;

/// The umask of this process, as the system reports it, else the usual one.
pub fn umask_of(rt: &HostRuntime) -> u16
    ensures { result < 512 }
{
    let Ok(status) = fs::read_to_string(rt, "/proc/self/status") else {
        return USUAL_UMASK;
    };
    umask_in(status.as_str()).unwrap_or(USUAL_UMASK)
}

/// The umask that the status of a process tells.
pub fn umask_in(status: &str) -> Option<u16>
    ensures range { IfSome result (λ umask. umask < 512) }
    ensures known { MatchOption result (TellsNoUmask status.now) (TellsUmask status.now) }
{
    let Some(digits) = umask_line(status) else {
        return None;
    };
    let Ok(umask) = u16::from_str_radix(digits, 8) else {
        return None;
    };
    if umask > LAST_UMASK {
        return None;
    }
    Some(umask)
}

// What is after the first head of such a line, up to its end.
fn umask_line(status: &str) -> Option<&str>
    ensures { MatchOption result (HasNoUmaskLine status.now) (λ line. IsUmaskLine status.now line.now) }
{
    let Some((_, after)) = status.split_once("\nUmask:\t") else {
        return None;
    };
    let Some((line, _)) = after.split_once('\n') else {
        return None;
    };
    Some(line)
}
