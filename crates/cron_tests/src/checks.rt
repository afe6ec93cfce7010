//! What a caller is refused for, in the order of the checks.
use crate::callers::caller;
use crate::outside::{FIRST, Left, NOW, SECOND, left_by, sessions_of, spool};
use civil_minute::Zone;
use memory_host::Plan;
use std::alloc::{AllocError, Global};
use std::test::Fail;

fn zone(is_readable: bool) -> Zone {
    if is_readable {
        Zone::Utc
    } else {
        Zone::Unreadable
    }
}

// A session of a caller with this user, directory, variable and zone.
fn left_by_caller(
    alloc: Global,
    user: &str,
    directory: &str,
    bytes: u32,
    is_readable: bool,
) -> Result<Left, AllocError> {
    let words: &[&str] = &["atcron", "-f", "crontab", "--turns", "1"];
    let caller = caller(alloc, user, directory, bytes, zone(is_readable))?;
    let host = spool(alloc, &[], Plan::quiet(alloc))?;
    let given = sessions_of(words, b"* * * * * x\n", &[NOW, NOW]);
    left_by(alloc, &given, &caller, host, (FIRST, SECOND))
}

#[test]
fn checks_of_a_caller(rt: HostRuntime) -> Result<(), Fail> {
    // a variable whose line is as long as all lines may be, and one byte longer
    let fits = 262_129;
    let long = 262_130;
    let cases: [(&str, &str, u32, bool, u8, &[u8]); 6] = [
        ("-x", "home", long, false, 1, b"atcron: bad user name\n"),
        ("ann", "home", long, false, 1, b"atcron: bad directory\n"),
        (
            "ann",
            "/home/ann",
            long,
            false,
            1,
            b"atcron: environment too large\n",
        ),
        (
            "ann",
            "/home/ann",
            long,
            true,
            1,
            b"atcron: environment too large\n",
        ),
        ("ann", "/home/ann", fits, false, 1, b"atcron: bad TZ\n"),
        ("ann", "/home/ann", fits, true, 0, b""),
    ];
    for (user, directory, bytes, is_readable, code, line) in cases {
        let left = left_by_caller(rt.alloc(), user, directory, bytes, is_readable)?;
        assert_eq!(rt; left.code, code);
        assert_eq!(rt; left.err.content(), line);
        assert_eq!(rt; left.mark.is_some(), code == 0);
        assert_eq!(rt; left.jobs, (code == 0, false));
    }
    Ok(())
}
