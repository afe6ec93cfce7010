//! Who calls, and from where.
ghost use Rattle.std.specs.Prelude.{◌<◌, IfOk};

use crate::environment::{variable, variable_or, variables_of};
use crate::umask::umask_of;
use civil_minute::zone_of;
use job_script::Context;
use std::alloc::AllocError;
use tool_output::Caller;

/// The caller of this process: the user by `LOGNAME`, the directory by `PWD` and the zone by `TZ`.
pub fn caller_of(rt: &HostRuntime) -> Result<Caller, AllocError>
    ensures { IfOk result (λ caller. caller.context.umask < 512) }
{
    let zone = variable(rt, "TZ")?;
    let context = Context {
        user: variable_or(rt, "LOGNAME", "")?,
        directory: variable_or(rt, "PWD", "")?,
        umask: umask_of(rt),
        environment: variables_of(rt)?,
    };
    Ok(Caller {
        context,
        zone: zone_of(rt.alloc(), zone.as_deref())?,
    })
}
