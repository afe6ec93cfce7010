//! What no scenario writes down: a directory in which as many jobs live as may, and how often commands are read.
ghost use Rattle.std.specs.Prelude.{IfOk};
ghost use Rattle.host_calls.specs.Session.{IsOutside};
ghost use Rattle.memory_host.specs.Host.{memory_session};

use crate::ann::ann;
use crate::counting_inputs::CountingInputs;
use crate::memory::NOW;
use crate::texts::texts;
use at_day::program;
use host_calls::Name;
use memory_host::{Files, ListReadings, MemoryHost, MemorySink, Plan};
use std::alloc::{AllocError, Global};
use std::test::Fail;

const SCRIPT: &[u8] = b"#!/bin/sh\n# at user=ann mail=0\necho hi\n";

// The files of a directory in which so many jobs of `ann` are pending, with the numbers from 1 on.
fn files(alloc: Global, count: u32) -> Result<Files, AllocError> {
    let mut files = Files::new(alloc);
    put(alloc, &mut files, b"at.deny", b"")?;
    put(
        alloc,
        &mut files,
        b".SEQ",
        format!(in alloc; "{count:05x}\n")?.as_bytes(),
    )?;
    for number in 1..=count {
        let name = format!(in alloc; "a{number:05x}01b968a0")?;
        put(alloc, &mut files, name.as_bytes(), SCRIPT)?;
    }
    Ok(files)
}

// The directory of these files.
fn crowd(alloc: Global, count: u32) -> Result<MemoryHost, AllocError>
    ensures { IfOk result (λ host. IsOutside (memory_session host)) }
{
    MemoryHost::make(alloc, files(alloc, count)?, Plan::quiet(alloc))
}

fn put(alloc: Global, files: &mut Files, name: &[u8], bytes: &[u8]) -> Result<(), AllocError> {
    if let Some(name) = Name::of(name) {
        files.put(alloc, name, bytes)?;
    }
    Ok(())
}

// The status of the command of these words, whose inputs count. The spool is outside a session before it and after it.
fn status(
    alloc: Global,
    words: &[&str],
    host: &mut MemoryHost,
    inputs: &mut CountingInputs,
    err: &mut MemorySink,
) -> Result<u8, AllocError>
    requires { IsOutside (memory_session host.old) }
    ensures { IsOutside (memory_session host.new) }
{
    let mut readings = ListReadings::make(alloc, &[NOW], &[None])?;
    let caller = ann(alloc, "/home/ann")?;
    let words = texts(alloc, words)?;
    let mut out = MemorySink::make(alloc, None);
    let status = program(
        alloc,
        &words,
        &caller,
        host,
        &mut readings,
        inputs,
        &mut out,
        err,
    );
    Ok(status.code)
}

// The statuses of commands one after another over a directory of so many jobs.
fn statuses(
    alloc: Global,
    commands: &[&[&str]],
    host: &mut MemoryHost,
    err: &mut MemorySink,
) -> Result<Vec<u8>, AllocError>
    requires { IsOutside (memory_session host.old) }
{
    let mut inputs = CountingInputs::new();
    let mut statuses = Vec::new(alloc);
    for words in commands {
        statuses.extend_from_slice(&[status(alloc, words, host, &mut inputs, err)?])?;
    }
    Ok(statuses)
}

#[test]
fn ten_thousand_jobs_and_one_less(rt: HostRuntime) -> Result<(), Fail> {
    let commands: [&[&str]; 3] = [&["at", "now"], &["atrm", "5"], &["at", "now"]];
    let mut err = MemorySink::make(rt.alloc(), None);
    let mut host = crowd(rt.alloc(), 10_000)?;
    let statuses = statuses(rt.alloc(), &commands, &mut host, &mut err);
    drop(host);
    assert_eq!(rt; statuses?.as_slice(), [1, 0, 0].as_slice());
    assert_eq!(rt;
        err.content(),
        b"at: queue full\njob 10001 at Wed Jan  1 00:00:00 2025\n".as_slice()
    );
    Ok(())
}

// The status of the command of these words over a spool with job 1, and how often standard input and a file were read.
fn reads(alloc: Global, words: &[&str]) -> Result<(u8, u64, u64), AllocError> {
    let mut host = crowd(alloc, 1)?;
    let mut inputs = CountingInputs::new();
    let mut err = MemorySink::make(alloc, None);
    let code = status(alloc, words, &mut host, &mut inputs, &mut err);
    drop(host);
    Ok((code?, inputs.of_standard, inputs.of_file))
}

#[test]
fn commands_are_read_once_by_a_submission(rt: HostRuntime) -> Result<(), Fail> {
    let cases: [(&[&str], (u8, u64, u64)); 7] = [
        (&["at", "now"], (0, 1, 0)),
        (&["batch"], (0, 1, 0)),
        (&["at", "-f", "commands", "now"], (0, 0, 1)),
        (&["at", "noon", "feb", "30"], (1, 0, 0)),
        (&["at", "-q", "ab", "now"], (1, 0, 0)),
        (&["atq"], (0, 0, 0)),
        (&["atrm", "1"], (0, 0, 0)),
    ];
    for (words, expected) in cases {
        assert_eq!(rt; reads(rt.alloc(), words)?, expected);
    }
    Ok(())
}
