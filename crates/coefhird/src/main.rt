//! Main of the installed program.
#![tactic(auto)]

use launcher::run_tool_by_name;
use process_input::{called_as, held_streams, say_startup_error};
use real_programs::UNCHECKED;
use std::process::ExitCode;

fn main(rt: HostRuntime) -> ExitCode {
    // They stay held until the end: what is opened in between must not become a standard stream.
    let _streams = held_streams(&rt);
    match run_tool_by_name(&rt, UNCHECKED) {
        Ok(code) => ExitCode::from(code),
        Err(why) => ExitCode::from(say_startup_error(&rt, called_as(&rt), why)),
    }
}
