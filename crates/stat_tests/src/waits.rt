//! The wait for jobs that live on.
use crate::directories::{Expected, answer_of, call, call_by, spool};
use memory_host::Plan;
use std::alloc::Global;
use std::test::Fail;

// The line of the job that runs.
const RUNNING: &str = "7\trunning\tWed Jan  1 00:01:00 2025\ta\tann\n";

// That of the one that waits, as an object.
const WAITING: &str =
    "{\"date\":\"Tue Dec 31 23:59:00 2024\",\"job\":8,\"queue\":\"c\",\"state\":\"waiting\",\"user\":\"ann\"}\n";

// The words, for how many seconds the sessions rest, and what is put, once.
const ROWS: [(&[&str], u64, &str); 5] = [
    (&["atstat", "-w", "--turns", "1", "7"], 0, RUNNING),
    (&["atstat", "-w", "--turns", "2", "7"], 1, RUNNING),
    (
        &["atstat", "-w", "--turns=9", "2", "7"],
        8,
        "2\texit\t0\n7\trunning\tWed Jan  1 00:01:00 2025\ta\tann\n",
    ),
    (&["atstat", "-w", "--turns", "3", "-q", "a"], 2, RUNNING),
    (&["atstat", "-w", "--turns", "3", "--json", "8"], 2, WAITING),
];

#[test]
fn the_turns_are_used_up(rt: HostRuntime) -> Result<(), Fail> {
    for (words, rested, out) in ROWS {
        let expected = Expected {
            code: 8,
            rested,
            out,
            err: "atstat: jobs still running\n",
        };
        let answered = call(rt.alloc(), "ann", words, &expected)?;
        assert_eq!(rt; answered, answer_of(&expected), "{words:?}");
    }
    Ok(())
}

// How many calls of the host one session has.
fn calls_of_one(alloc: Global) -> Result<u64, Fail> {
    let expected = Expected {
        code: 0,
        rested: 0,
        out: RUNNING,
        err: "",
    };
    let mut host = spool(alloc, Plan::quiet(alloc))?;
    call_by(alloc, "ann", &["atstat", "7"], &mut host, None, &expected)?;
    Ok(host.calls())
}

// Nothing is held between two sessions: the lock is taken at the second one, which ends the wait.
#[test]
fn the_lock_is_taken_at_a_later_session(rt: HostRuntime) -> Result<(), Fail> {
    let alloc = rt.alloc();
    let expected = Expected {
        code: 5,
        rested: 1,
        out: "",
        err: "atstat: spool busy\n",
    };
    let first = calls_of_one(alloc)?;
    let mut plan = Plan::quiet(alloc);
    plan.taken.push(alloc, first)?;
    let mut host = spool(alloc, plan)?;
    let words = ["atstat", "-w", "--turns", "9", "7"];
    let answered = call_by(alloc, "ann", &words, &mut host, None, &expected)?;
    let calls = host.calls();
    drop(host);
    assert_eq!(rt; answered, answer_of(&expected));
    assert_eq!(rt; calls.checked_sub(1), Some(first));
    Ok(())
}
