//! Under which name it is said why the program could not begin.
use caller_environment::take_tool;
use std::{fs, str};

// The name of the program itself.
const PROGRAM: &str = "coefhird";

/// The name of the tool by which this process was called, also where not all of its words are texts.
pub fn called_as(rt: &HostRuntime) -> &'static str {
    let Ok(line) = fs::read(rt, "/proc/self/cmdline") else {
        return PROGRAM;
    };
    let mut words = Vec::new(rt.alloc());
    for word in line.split(|byte| *byte == 0).take(2) {
        let word = str::from_utf8(word).unwrap_or("");
        let Ok(word) = String::from_str(rt.alloc(), word) else {
            return PROGRAM;
        };
        if words.push(word).is_err() {
            return PROGRAM;
        }
    }
    match take_tool(&mut words) {
        Some(tool) => tool.as_str(),
        None => PROGRAM,
    }
}
