//! Runs cases written as text: calls, turns, faults, crashes, reboots; parses them and prints what happened. The gate
//! compares the output with lines written by hand.
#![tactic(auto)]

mod event;
mod machine;
mod opening;
mod printed;
mod scene;
mod settings;
mod transcript;
mod values;
mod why;
mod words;

use crate::scene::Scenes;
use crate::transcript::Transcript;
use crate::why::Why;
use anyhow::{Result, bail};
use std::io::Write;
use std::process::ExitCode;
use std::{env, fs, io};

/// How the names of scenario files end.
const ENDING: &str = ".scenarios";

fn main(rt: HostRuntime) -> ExitCode {
    match run_files(&rt) {
        Ok(()) => ExitCode::from(0),
        Err(error) => {
            let _ = eprintln!(rt; "{error}");
            ExitCode::from(1)
        }
    }
}

// Runs the files that the arguments name, or all that are here.
fn run_files(rt: &HostRuntime) -> Result<()> {
    let mut paths = env::args(rt)?.skip(1).collect::<Vec<String>>(rt.alloc())?;
    if paths.is_empty() {
        paths = scenario_files(rt)?;
    }
    for path in &paths {
        run_file(rt, path.as_str())?;
    }
    Ok(())
}

// The names of the scenario files that are here, in their order.
fn scenario_files(rt: &HostRuntime) -> Result<Vec<String>> {
    let mut names = Vec::new(rt.alloc());
    for entry in fs::read_dir(rt, ".")? {
        let entry = entry?;
        let name = entry.file_name();
        if name.ends_with(ENDING) {
            names.push(String::from_str(rt.alloc(), name)?)?;
        }
    }
    names.sort()?;
    Ok(names)
}

// Runs the scenarios of a file, and prints what happens in each.
fn run_file(rt: &HostRuntime, path: &str) -> Result<()> {
    let text = fs::read(rt, path)?;
    let ran = run_text(rt, &text);
    drop(text);
    ran
}

// Runs the scenarios of a text.
fn run_text(rt: &HostRuntime, text: &[u8]) -> Result<()> {
    let mut scenes = Scenes::new();
    let ran = run_lines(rt, text, &mut scenes);
    drop(scenes);
    ran
}

// Goes on by each line of a text.
fn run_lines(rt: &HostRuntime, text: &[u8], scenes: &mut Scenes) -> Result<()> {
    for (index, line) in text.split(|byte| *byte == b'\n').enumerate() {
        match run_line(rt, line, scenes)? {
            Ok(()) => {}
            Err(Why::Memory) => bail!("out of memory"),
            Err(why) => bail!("line {}: {why}", index + 1),
        }
    }
    Ok(())
}

// Does what a line says, and prints what happens.
fn run_line(
    rt: &HostRuntime,
    line: &[u8],
    scenes: &mut Scenes,
) -> io::Result<std::result::Result<(), Why>> {
    let mut transcript = Transcript::new(rt.alloc());
    let taken = scenes.take(rt.alloc(), line, &mut transcript);
    let printed = io::writer(rt).write_all(transcript.as_bytes());
    drop(transcript);
    printed?;
    Ok(taken)
}
