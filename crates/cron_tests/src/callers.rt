//! Callers of the program.
ghost use Rattle.std.specs.Prelude.{◌<◌, IfOk};

use civil_minute::Zone;
use host_calls::Text;
use job_script::{Context, Variables};
use std::alloc::{AllocError, Global};
use tool_output::Caller;

/// This user at this directory, with a variable of so many bytes.
pub fn caller(
    alloc: Global,
    user: &str,
    directory: &str,
    bytes: u32,
    zone: Zone,
) -> Result<Caller, AllocError>
    ensures { IfOk result (λ caller. caller.context.umask < 512) }
{
    let context = Context {
        user: Text::of(alloc, user)?,
        directory: Text::of(alloc, directory)?,
        umask: 0o022,
        environment: variable(alloc, bytes)?,
    };
    Ok(Caller { context, zone })
}

// One variable of so many bytes.
fn variable(alloc: Global, bytes: u32) -> Result<Variables, AllocError> {
    let mut value = String::new(alloc);
    for _ in 0..bytes {
        value.push('v')?;
    }
    let mut variables = Variables::new(alloc);
    variables.push(alloc, "A", value.as_str())?;
    Ok(variables)
}

/// The user `ann`, by UTC.
pub fn ann(alloc: Global) -> Result<Caller, AllocError>
    ensures { IfOk result (λ caller. caller.context.umask < 512) }
{
    caller(alloc, "ann", "/home/ann", 1, Zone::Utc)
}
