//! Refusals and faults.
use crate::directories::{Expected, answer_of, call, call_by, spool, spool_directory};
use memory_host::Plan;
use std::test::Fail;

// The words, the exit status, and what is said.
const ROWS: [(&[&str], u8, &str); 16] = [
    (&["atstat", "11"], 1, "atstat: no such job 11\n"),
    (&["atstat", "0"], 1, "atstat: no such job 0\n"),
    (
        &["atstat", "4294967295"],
        1,
        "atstat: no such job 4294967295\n",
    ),
    (&["atstat", "9"], 1, "atstat: job 9 is not yours\n"),
    (
        &["atstat", "2", "9", "11"],
        1,
        "atstat: job 9 is not yours\n",
    ),
    (&["atstat", "-w", "9"], 1, "atstat: job 9 is not yours\n"),
    (&["atstat", "4294967296"], 1, "atstat: usage\n"),
    (&["atstat", "x"], 1, "atstat: usage\n"),
    (&["atstat", "-q", "a", "2"], 1, "atstat: usage\n"),
    (&["atstat", "-q", "="], 1, "atstat: bad queue\n"),
    (&["atstat", "-q", "ab"], 1, "atstat: bad queue\n"),
    (&["atstat", "--turns", "2"], 1, "atstat: usage\n"),
    (&["atstat", "-w", "--turns", "0"], 1, "atstat: usage\n"),
    (&["atstat", "-v"], 1, "atstat: usage\n"),
    (&["atstat", "--help"], 1, "atstat: usage\n"),
    (&[], 1, "atstat: usage\n"),
];

#[test]
fn a_refusal_puts_no_line(rt: HostRuntime) -> Result<(), Fail> {
    for (words, code, err) in ROWS {
        let expected = stopped(code, err);
        let answered = call(rt.alloc(), "ann", words, &expected)?;
        assert_eq!(rt; answered, answer_of(&expected), "{words:?}");
    }
    Ok(())
}

// Nothing is put, and this is said.
fn stopped(code: u8, err: &'static str) -> Expected {
    Expected {
        code,
        rested: 0,
        out: "",
        err,
    }
}

#[test]
fn a_user_whom_the_lists_refuse(rt: HostRuntime) -> Result<(), Fail> {
    let alloc = rt.alloc();
    let expected = stopped(1, "atstat: not allowed\n");
    let mut host = spool_directory(
        alloc,
        &[("at.deny", b"ann\n".as_slice())],
        Plan::quiet(alloc),
    )?;
    let answered = call_by(alloc, "ann", &["atstat", "7"], &mut host, None, &expected)?;
    drop(host);
    assert_eq!(rt; answered, answer_of(&expected));
    Ok(())
}

#[test]
fn a_user_whose_name_no_job_can_have(rt: HostRuntime) -> Result<(), Fail> {
    let expected = stopped(1, "atstat: bad user name\n");
    let answered = call(rt.alloc(), "-ann", &["atstat", "7"], &expected)?;
    assert_eq!(rt; answered, answer_of(&expected));
    Ok(())
}

#[test]
fn the_lock_is_taken(rt: HostRuntime) -> Result<(), Fail> {
    let alloc = rt.alloc();
    let expected = stopped(5, "atstat: spool busy\n");
    let mut plan = Plan::quiet(alloc);
    plan.taken.push(alloc, 0)?;
    let mut host = spool(alloc, plan)?;
    let answered = call_by(alloc, "ann", &["atstat"], &mut host, None, &expected)?;
    drop(host);
    assert_eq!(rt; answered, answer_of(&expected));
    Ok(())
}

#[test]
fn a_call_on_the_directory_fails(rt: HostRuntime) -> Result<(), Fail> {
    let alloc = rt.alloc();
    let expected = stopped(2, "atstat: spool fault\n");
    let mut plan = Plan::quiet(alloc);
    plan.fuse = Some(1);
    let mut host = spool(alloc, plan)?;
    let answered = call_by(alloc, "ann", &["atstat"], &mut host, None, &expected)?;
    drop(host);
    assert_eq!(rt; answered, answer_of(&expected));
    Ok(())
}

#[test]
fn the_output_fails(rt: HostRuntime) -> Result<(), Fail> {
    let alloc = rt.alloc();
    let expected = stopped(4, "atstat: output fault\n");
    let mut host = spool(alloc, Plan::quiet(alloc))?;
    let answered = call_by(
        alloc,
        "ann",
        &["atstat", "2"],
        &mut host,
        Some(0),
        &expected,
    )?;
    drop(host);
    assert_eq!(rt; answered, answer_of(&expected));
    Ok(())
}

// A spool whose journal has a byte too many.
const SPOILED: [(&str, &[u8]); 3] = [
    (".SEQ", b"00000001\n"),
    (".JRN", b"................................."),
    ("at.deny", b""),
];

#[test]
fn a_damaged_spool(rt: HostRuntime) -> Result<(), Fail> {
    let alloc = rt.alloc();
    let expected = stopped(7, "atstat: .JRN damaged at 32\n");
    let mut host = spool_directory(alloc, &SPOILED, Plan::quiet(alloc))?;
    let answered = call_by(alloc, "ann", &["atstat", "2"], &mut host, None, &expected)?;
    drop(host);
    assert_eq!(rt; answered, answer_of(&expected));
    Ok(())
}
