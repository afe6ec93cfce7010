//! Main of the commands, without a launcher.
//!
//! `atday` leaves the spool alone.
#![tactic(auto)]

use process_input::held_streams;
use real_programs::{Program, UNCHECKED, exit_code, run_alone};
use std::process::ExitCode;

// The name under which is said why the tools could not begin.
const TOOL: &str = "at";

fn main(rt: HostRuntime) -> ExitCode {
    // They stay held until the end: what is opened in between must not become a standard stream.
    let _streams = held_streams(&rt);
    exit_code(&rt, TOOL, run_alone(&rt, Program::Commands, UNCHECKED))
}
