//! Lines of sessions that were not done.

use crate::callers::ann;
use crate::outside::{Left, NOW, SECOND, given_of, left_by, spool};
use memory_host::Plan;
use std::alloc::{AllocError, Global};
use std::test::Fail;

// Three sessions, of which the lock is taken at the first, over an output of which this put fails.
fn left_by_busy(alloc: Global, failing_err: Option<u64>) -> Result<Left, AllocError> {
    let words: &[&str] = &["atcron", "-f", "crontab", "--turns", "3"];
    let given = given_of(words, Some(b"* * * * * x\n"), &[NOW, NOW + 60], failing_err);
    let mut plan = Plan::quiet(alloc);
    plan.taken.push(alloc, 0)?;
    let caller = ann(alloc)?;
    let host = spool(alloc, &[], plan)?;
    left_by(alloc, &given, &caller, host, (b"a0000000101b9ebff", SECOND))
}

#[test]
fn a_busy_session_and_an_output_that_fails(rt: HostRuntime) -> Result<(), Fail> {
    let cases: [(Option<u64>, u8, u64, &[u8], bool); 3] = [
        // a second later, and then at the next full minute
        (None, 0, 61, b"atcron: spool busy\n", true),
        // no further session is made
        (Some(0), 4, 0, b"atcron: output fault\n", false),
        // of sessions that were done nothing is put
        (Some(1), 0, 61, b"atcron: spool busy\n", true),
    ];
    for (failing, code, rested, lines, is_submitted) in cases {
        let left = left_by_busy(rt.alloc(), failing)?;
        assert_eq!(rt; left.code, code);
        assert_eq!(rt; left.err.content(), lines);
        assert_eq!(rt; left.rested, rested);
        assert_eq!(rt; left.mark.is_some(), is_submitted);
        assert_eq!(rt; left.jobs, (is_submitted, false));
    }
    Ok(())
}
