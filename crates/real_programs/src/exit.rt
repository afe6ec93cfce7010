//! The exit status of a process.
ghost use Rattle.std.specs.Prelude.{◌≡◌};
ghost use Rattle.std.specs.Process.{exit_status};
ghost use Rattle.real_programs.specs.Exit.{code_of_end};

use crate::real_run::RealRun;
use process_input::{StartupError, say_startup_error};
use std::process::ExitCode;
use witnessed_host::{InputWitness, Witness};

/// The exit status of a program that ended so. Where it could not begin, that is said under the name of the tool.
pub fn exit_code<W: Witness + Drop, V: InputWitness + Drop>(
    rt: &HostRuntime,
    tool: &str,
    ended: Result<RealRun<W, V>, StartupError>,
) -> ExitCode
    ensures { exit_status result ≡ code_of_end ended }
{
    match ended {
        Ok(ran) => ExitCode::from(ran.exit.code),
        Err(why) => ExitCode::from(say_startup_error(rt, tool, why)),
    }
}
