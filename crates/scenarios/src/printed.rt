//! What the events of a scenario print.
use crate::transcript::Transcript;
use at_day::Counts;
use daemon_turn::{TurnEnd, TurnReport, TurnStep};
use host_calls::{Asked, Ending, Handed, StoreFault};
use std::alloc::{AllocError, Global};

/// Prints how a turn ended, and the steps that it reports.
pub fn show_turn(
    alloc: Global,
    report: &TurnReport,
    transcript: &mut Transcript,
) -> Result<(), AllocError> {
    transcript.line(end_line(alloc, &report.end)?.as_str())?;
    for step in report.steps.as_slice() {
        transcript.line(step_line(alloc, step)?.as_str())?;
    }
    Ok(())
}

/// Prints the exit status of a call, what it put on standard output and standard error, and for how many seconds it
// rested.
pub fn show_run(
    alloc: Global,
    word: &str,
    code: u8,
    out: &[u8],
    err: &[u8],
    rested: u64,
    transcript: &mut Transcript,
) -> Result<(), AllocError> {
    let line = format!(in alloc; "{word} {code}")?;
    transcript.line(line.as_str())?;
    put_sink(transcript, "  out", out)?;
    put_sink(transcript, "  err", err)?;
    if rested == 0 {
        return Ok(());
    }
    let line = format!(in alloc; "  rested {rested}")?;
    transcript.line(line.as_str())
}

// Prints what was put on a sink, if anything was.
fn put_sink(transcript: &mut Transcript, before: &str, content: &[u8]) -> Result<(), AllocError> {
    if content.is_empty() {
        return Ok(());
    }
    transcript.quoted(before, content)
}

pub fn show_handed(
    alloc: Global,
    handed: &Handed,
    transcript: &mut Transcript,
) -> Result<(), AllocError> {
    let number = handed.number;
    let nice = handed.nice;
    let how = if handed.started { "started" } else { "failed" };
    let before = format!(in alloc; "  handed {number} nice {nice} {how}")?;
    transcript.quoted(before.as_str(), handed.script.as_slice())
}

pub fn show_asked(
    alloc: Global,
    asked: &Asked,
    transcript: &mut Transcript,
) -> Result<(), AllocError> {
    let child = asked.child.id;
    let answer = match asked.answer {
        None => "running".to_string(alloc)?,
        Some(ending) => ending_text(alloc, ending)?,
    };
    let line = format!(in alloc; "  asked {child} {}", answer.as_str())?;
    transcript.line(line.as_str())
}

// How a turn ended.
fn end_line(alloc: Global, end: &TurnEnd) -> Result<String, AllocError> {
    match end {
        TurnEnd::Done => "turn done".to_string(alloc),
        TurnEnd::Busy => "turn busy".to_string(alloc),
        TurnEnd::FileFault => "turn file fault".to_string(alloc),
        TurnEnd::Memory => "turn memory".to_string(alloc),
        TurnEnd::Damaged(damage) => {
            let name = str::from_utf8(damage.name.as_bytes()).unwrap_or("");
            let offset = damage.offset;
            format!(in alloc; "turn damaged {name} at {offset}")
        }
    }
}

/// What a directory counts, or why it could not be counted.
pub fn counts_line(
    alloc: Global,
    counts: &Result<Counts, StoreFault>,
) -> Result<String, AllocError> {
    match counts {
        Ok(counts) => line_of_counts(alloc, counts),
        Err(StoreFault::Damaged(damage)) => {
            let name = str::from_utf8(damage.name.as_bytes()).unwrap_or("");
            let offset = damage.offset;
            format!(in alloc; "counts damaged {name} at {offset}")
        }
        Err(StoreFault::Memory) => "counts memory".to_string(alloc),
        Err(_) => "counts file fault".to_string(alloc),
    }
}

fn line_of_counts(alloc: Global, counts: &Counts) -> Result<String, AllocError> {
    let Counts {
        last,
        pending,
        running,
        removed,
        finished,
        not_started,
        interrupted,
    } = *counts;
    format!(in alloc;
        "counts last {last}, pending {pending}, running {running}, removed {removed}, finished {finished}, \
         not started {not_started}, interrupted {interrupted}"
    )
}

// A step of a turn.
fn step_line(alloc: Global, step: &TurnStep) -> Result<String, AllocError> {
    match *step {
        TurnStep::HandedOver(number, second) => {
            format!(in alloc; "  handed over {number} at {second}")
        }
        TurnStep::Ended(number, ending) => {
            let ending = ending_text(alloc, ending)?;
            format!(in alloc; "  ended {number} {}", ending.as_str())
        }
        TurnStep::Interrupted(number) => format!(in alloc; "  interrupted {number}"),
        TurnStep::Forgotten(number) => format!(in alloc; "  forgotten {number}"),
    }
}

// How a child ended.
fn ending_text(alloc: Global, ending: Ending) -> Result<String, AllocError> {
    match ending {
        Ending::Exit(code) => format!(in alloc; "exit {code}"),
        Ending::Signal(number) => format!(in alloc; "signal {number}"),
        Ending::NotStarted => "not started".to_string(alloc),
    }
}
