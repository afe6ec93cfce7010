//! How many calls of the host a session has: as many as one of `atq`.
use crate::directories::{Expected, call_by, caller, spool, texts};
use at_commands::command;
use memory_host::{ListReadings, MemoryInputs, MemorySink, Plan};
use std::alloc::Global;
use std::test::Fail;

// How many calls of the host a listing has, and its exit status.
fn calls_of_list(alloc: Global) -> Result<(u64, u8), Fail> {
    let ann = caller(alloc, "ann")?;
    let words = texts(alloc, &["atq"])?;
    let mut host = spool(alloc, Plan::quiet(alloc))?;
    let mut readings = ListReadings::make(alloc, &[0], &[None])?;
    let mut inputs = MemoryInputs::make(alloc, b"", None, false)?;
    let mut out = MemorySink::make(alloc, None);
    let mut err = MemorySink::make(alloc, None);
    let status = command(
        alloc,
        &words,
        &ann,
        &mut host,
        &mut readings,
        &mut inputs,
        &mut out,
        &mut err,
    );
    Ok((host.calls(), status.code))
}

// How many calls of the host a call of the program has, and its exit status.
fn calls_of(alloc: Global, words: &[&str]) -> Result<(u64, u8), Fail> {
    let expected = Expected {
        code: 0,
        rested: 0,
        out: "",
        err: "",
    };
    let mut host = spool(alloc, Plan::quiet(alloc))?;
    let answered = call_by(alloc, "ann", words, &mut host, None, &expected)?;
    Ok((host.calls(), answered.0))
}

#[test]
fn as_many_as_a_listing(rt: HostRuntime) -> Result<(), Fail> {
    let alloc = rt.alloc();
    let listed = calls_of_list(alloc)?;
    let stated = calls_of(alloc, &["atstat"])?;
    let waited = calls_of(alloc, &["atstat", "-w", "--turns", "3"])?;
    assert_eq!(rt; listed.1, 0);
    assert_eq!(rt; stated, listed);
    assert_eq!(rt; waited.1, 8);
    assert_eq!(rt; waited.0 / 3, listed.0);
    assert_eq!(rt; waited.0 % 3, 0);
    Ok(())
}
