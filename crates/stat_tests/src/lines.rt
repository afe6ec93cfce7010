//! Each kind of line.
use crate::directories::{Expected, answer_of, call};
use std::test::Fail;

// The words, and what is put.
const ROWS: [(&[&str], &str); 14] = [
    (
        &["atstat"],
        "8\twaiting\tTue Dec 31 23:59:00 2024\tc\tann\n7\trunning\tWed Jan  1 00:01:00 2025\ta\tann\n1\tremoved\n2\texit\t0\n3\texit\t255\n4\tsignal\t9\n5\tnot started\n6\tinterrupted\n",
    ),
    (
        &["atstat", "10", "2", "7", "2"],
        "10\tforgotten\n2\texit\t0\n7\trunning\tWed Jan  1 00:01:00 2025\ta\tann\n",
    ),
    (
        &["atstat", "-q", "a"],
        "7\trunning\tWed Jan  1 00:01:00 2025\ta\tann\n",
    ),
    (
        &["atstat", "-q", "c"],
        "8\twaiting\tTue Dec 31 23:59:00 2024\tc\tann\n",
    ),
    (&["atstat", "-q", "b"], ""),
    (
        &["atstat", "--json", "8"],
        "{\"date\":\"Tue Dec 31 23:59:00 2024\",\"job\":8,\"queue\":\"c\",\"state\":\"waiting\",\"user\":\"ann\"}\n",
    ),
    (
        &["atstat", "--json", "7"],
        "{\"date\":\"Wed Jan  1 00:01:00 2025\",\"job\":7,\"queue\":\"a\",\"state\":\"running\",\"user\":\"ann\"}\n",
    ),
    (
        &["atstat", "--json", "1"],
        "{\"job\":1,\"state\":\"removed\"}\n",
    ),
    (
        &["atstat", "--json", "3"],
        "{\"code\":255,\"job\":3,\"state\":\"exit\"}\n",
    ),
    (
        &["atstat", "--json", "4"],
        "{\"job\":4,\"signal\":9,\"state\":\"signal\"}\n",
    ),
    (
        &["atstat", "--json", "5"],
        "{\"job\":5,\"state\":\"not started\"}\n",
    ),
    (
        &["atstat", "--json", "6"],
        "{\"job\":6,\"state\":\"interrupted\"}\n",
    ),
    (
        &["atstat", "--json", "10"],
        "{\"job\":10,\"state\":\"forgotten\"}\n",
    ),
    (&["atstat", "0000000002"], "2\texit\t0\n"),
];

#[test]
fn a_line_of_each_kind(rt: HostRuntime) -> Result<(), Fail> {
    for (words, lines) in ROWS {
        let expected = put(lines);
        let answered = call(rt.alloc(), "ann", words, &expected)?;
        assert_eq!(rt; answered, answer_of(&expected), "{words:?}");
    }
    Ok(())
}

// These lines are put.
fn put(lines: &'static str) -> Expected {
    Expected {
        code: 0,
        rested: 0,
        out: lines,
        err: "",
    }
}

#[test]
fn root_sees_the_jobs_of_all(rt: HostRuntime) -> Result<(), Fail> {
    let expected = put(
        "7\trunning\tWed Jan  1 00:01:00 2025\ta\tann\n9\twaiting\tWed Jan  1 00:00:00 2025\ta\tbob\n",
    );
    let answered = call(rt.alloc(), "root", &["atstat", "-q", "a"], &expected)?;
    assert_eq!(rt; answered, answer_of(&expected));
    Ok(())
}

#[test]
fn another_sees_fates_but_no_live_job(rt: HostRuntime) -> Result<(), Fail> {
    let expected = put(
        "1\tremoved\n2\texit\t0\n3\texit\t255\n4\tsignal\t9\n5\tnot started\n6\tinterrupted\n",
    );
    let answered = call(rt.alloc(), "eve", &["atstat"], &expected)?;
    assert_eq!(rt; answered, answer_of(&expected));
    Ok(())
}
