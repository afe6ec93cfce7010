//! The caller of the tests in memory.
ghost use Rattle.std.specs.Prelude.{◌<◌, IfOk};

use at_day::Caller;
use civil_minute::Zone;
use host_calls::Text;
use job_script::{Context, Variables};
use std::alloc::{AllocError, Global};

/// The user `ann` in this directory.
pub fn ann(alloc: Global, directory: &str) -> Result<Caller, AllocError>
    ensures { IfOk result (λ caller. caller.context.umask < 512) }
{
    let mut environment = Variables::new(alloc);
    environment.push(alloc, "HOME", "/home/ann")?;
    let context = Context {
        user: Text::of(alloc, "ann")?,
        directory: Text::of(alloc, directory)?,
        umask: 0o022,
        environment,
    };
    Ok(Caller {
        context,
        zone: Zone::Utc,
    })
}
