//! Sessions of the program over a spool in memory.
use crate::outside::{FIRST, Left, NOW, SECOND, given_of, left_by_ann, sessions_of};
use host_calls::Bytes;
use std::test::Fail;

// One entry that is due at 08:30 from Monday to Friday, and one that is due in each minute.
const WEEKDAYS: &[u8] = b"# a\n30 8 * * 1-5 run\n";

const MINUTELY: &[u8] = b"* * * * * x\n";

// The words for so many sessions.
const ONE: &[&str] = &["atcron", "-f", "crontab", "--turns", "1"];

const TWO: &[&str] = &["atcron", "-f", "crontab", "--turns", "2"];

const THREE: &[&str] = &["atcron", "-f", "crontab", "--turns", "3"];

fn marked(left: &Left) -> Option<&[u8]> {
    left.mark.as_ref().map(Bytes::as_slice)
}

#[test]
fn jobs_and_marks_of_sessions(rt: HostRuntime) -> Result<(), Fail> {
    type Case<'a> = (
        &'a [&'a str],
        &'a [u8],
        [i64; 2],
        &'a [u8],
        u64,
        &'a [u8],
        (bool, bool),
    );
    let cases: [Case; 3] = [
        // one job in its minute, however often there is a session
        (
            TWO,
            WEEKDAYS,
            [NOW, NOW + 59],
            SECOND,
            60,
            b"01b9ebfe\n",
            (true, false),
        ),
        // nothing is due a minute later
        (
            ONE,
            WEEKDAYS,
            [NOW + 60, NOW],
            b"a0000000101b9ebff",
            0,
            b"01b9ebff\n",
            (false, false),
        ),
        // the next session is at the next full minute
        (
            TWO,
            MINUTELY,
            [NOW + 13, NOW + 60],
            b"a0000000201b9ebff",
            47,
            b"01b9ebff\n",
            (true, true),
        ),
    ];
    for (words, crontab, nows, second, rested, mark, jobs) in cases {
        let given = sessions_of(words, crontab, &nows);
        let left = left_by_ann(rt.alloc(), &given, None, (FIRST, second))?;
        assert_eq!(rt; left.code, 0);
        assert_eq!(rt; left.err.content(), b"".as_slice());
        assert_eq!(rt; left.rested, rested);
        assert_eq!(rt; marked(&left), Some(mark));
        assert_eq!(rt; left.jobs, jobs);
    }
    Ok(())
}

#[test]
fn damaged_marks(rt: HostRuntime) -> Result<(), Fail> {
    let cases: [(&[u8], &[u8]); 4] = [
        (b"", b"atcron: .CRON damaged at 0\n"),
        (b"0000000", b"atcron: .CRON damaged at 7\n"),
        (b"00000000\n\n", b"atcron: .CRON damaged at 9\n"),
        (b"fbb38480\n", b"atcron: .CRON damaged at 6\n"),
    ];
    for (mark, line) in cases {
        let given = sessions_of(THREE, WEEKDAYS, &[NOW, NOW]);
        let left = left_by_ann(rt.alloc(), &given, Some(mark), (FIRST, SECOND))?;
        assert_eq!(rt; left.code, 7);
        assert_eq!(rt; left.err.content(), line);
        assert_eq!(rt; marked(&left), Some(mark));
        assert_eq!(rt; left.jobs, (false, false));
    }
    Ok(())
}

#[test]
fn what_ends_the_program(rt: HostRuntime) -> Result<(), Fail> {
    type Case<'a> = (&'a [&'a str], Option<&'a [u8]>, u8, &'a [u8]);
    let cases: [Case; 9] = [
        (TWO, None, 3, b"atcron: input fault\n"),
        (
            TWO,
            Some(b"60 * * * * x\n"),
            1,
            b"atcron: bad crontab at line 1\n",
        ),
        (
            TWO,
            Some(b"# a\n* * * * * x\n@daily x\n"),
            1,
            b"atcron: bad crontab at line 3\n",
        ),
        (
            TWO,
            Some(&[b'#'; 65_537]),
            1,
            b"atcron: commands too long\n",
        ),
        (&[], Some(WEEKDAYS), 1, b"atcron: usage\n"),
        (&["atcron"], Some(WEEKDAYS), 1, b"atcron: usage\n"),
        (
            &["atcron", "-f", "a", "--turns", "0"],
            Some(WEEKDAYS),
            1,
            b"atcron: usage\n",
        ),
        (
            &["atcron", "-f", "a", "b"],
            Some(WEEKDAYS),
            1,
            b"atcron: usage\n",
        ),
        (
            &["atcron", "--turns", "1"],
            Some(WEEKDAYS),
            1,
            b"atcron: usage\n",
        ),
    ];
    for (words, crontab, code, line) in cases {
        let given = given_of(words, crontab, &[NOW, NOW], None);
        let left = left_by_ann(rt.alloc(), &given, None, (FIRST, SECOND))?;
        assert_eq!(rt; left.code, code);
        assert_eq!(rt; left.err.content(), line);
        assert!(rt; left.mark.is_none());
        assert_eq!(rt; left.jobs, (false, false));
    }
    Ok(())
}

#[test]
fn a_clock_out_of_its_range(rt: HostRuntime) -> Result<(), Fail> {
    let given = sessions_of(THREE, WEEKDAYS, &[NOW, -1]);
    let left = left_by_ann(rt.alloc(), &given, None, (FIRST, SECOND))?;
    assert_eq!(rt; left.code, 1);
    assert_eq!(rt; left.err.content(), b"atcron: bad clock\n".as_slice());
    assert_eq!(rt; left.rested, 60);
    assert_eq!(rt; left.jobs, (true, false));
    Ok(())
}
