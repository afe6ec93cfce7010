//! The exit status where a job is waited for that is done.
use crate::directories::{Expected, answer_of, call};
use std::test::Fail;

// The words, the exit status, and what is put.
const ROWS: [(&[&str], u8, &str); 12] = [
    (&["atstat", "-w", "1"], 123, "1\tremoved\n"),
    (&["atstat", "-w", "2"], 0, "2\texit\t0\n"),
    (&["atstat", "-w", "3"], 255, "3\texit\t255\n"),
    (&["atstat", "-w", "4"], 137, "4\tsignal\t9\n"),
    (&["atstat", "-w", "5"], 125, "5\tnot started\n"),
    (&["atstat", "-w", "6"], 124, "6\tinterrupted\n"),
    (&["atstat", "-w", "10"], 122, "10\tforgotten\n"),
    (
        &["atstat", "-w", "--json", "3"],
        255,
        "{\"code\":255,\"job\":3,\"state\":\"exit\"}\n",
    ),
    (
        &["atstat", "-w", "--turns", "1", "3"],
        255,
        "3\texit\t255\n",
    ),
    (
        &["atstat", "-w", "3", "4"],
        0,
        "3\texit\t255\n4\tsignal\t9\n",
    ),
    (&["atstat", "3"], 0, "3\texit\t255\n"),
    (&["atstat", "-w", "-q", "b"], 0, ""),
];

#[test]
fn the_status_of_one_job(rt: HostRuntime) -> Result<(), Fail> {
    for (words, code, out) in ROWS {
        let expected = Expected {
            code,
            rested: 0,
            out,
            err: "",
        };
        let answered = call(rt.alloc(), "ann", words, &expected)?;
        assert_eq!(rt; answered, answer_of(&expected), "{words:?}");
    }
    Ok(())
}
