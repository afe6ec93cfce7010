//! Main of ataccount, without a launcher.
//!
//! Without a directory in its words it does nothing, and creates none.
#![tactic(auto)]

use process_input::held_streams;
use real_programs::{Program, UNCHECKED, exit_code, run_alone};
use std::process::ExitCode;

// The name under which is said why the program could not begin.
const TOOL: &str = "ataccount";

fn main(rt: HostRuntime) -> ExitCode {
    // They stay held until the end: what is opened in between must not become a standard stream.
    let _streams = held_streams(&rt);
    exit_code(&rt, TOOL, run_alone(&rt, Program::Account, UNCHECKED))
}
