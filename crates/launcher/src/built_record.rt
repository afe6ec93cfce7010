//! The record of the gate that proved this program, which the package puts next to it.
use std::{env, fs};

/// The text of the record, where there is one.
pub fn built_record(rt: &HostRuntime) -> Option<String> {
    let program = env::current_exe(rt).ok()?;
    let path = format!(in rt.alloc(); "{}.built", program.as_str()).ok()?;
    fs::read_to_string(rt, path.as_str()).ok()
}
