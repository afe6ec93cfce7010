//! Listings of next minutes.
use civil_minute::zone_of;
use cron_turn::next_program;
use memory_host::{ListReadings, MemoryInputs, MemorySink};
use std::alloc::{AllocError, Global};
use std::test::Fail;

// Fri Jan 24 2025, 08:30:13 UTC.
const NOW: i64 = 1_737_707_413;

// The lines of the crontab of `listing_of_a_crontab`.
const LINES: &[u8] =
    b"Mon Jan 27 08:30:00 2025\trun it\nTue Jan 28 08:30:00 2025\trun it\nnot within nine years\tnever\nFri Jan 24 08:31:00 2025\ttick\nFri Jan 24 08:32:00 2025\ttick\n";

// What the program answers: its status, what it puts, and what it says.
fn listed(
    alloc: Global,
    words: &[&str],
    zone: &str,
    now: i64,
    crontab: Option<&[u8]>,
    failing_out: Option<u64>,
) -> Result<(u8, MemorySink, MemorySink), AllocError> {
    let mut texts = Vec::new(alloc);
    for word in words {
        texts.push(String::from_str(alloc, word)?)?;
    }
    let zone = zone_of(alloc, Some(zone))?;
    let mut readings = ListReadings::make(alloc, &[now], &[None])?;
    let mut inputs = MemoryInputs::make(alloc, b"", crontab, false)?;
    let mut out = MemorySink::make(alloc, failing_out);
    let mut err = MemorySink::make(alloc, None);
    let status = next_program(
        alloc,
        &texts,
        &zone,
        &mut readings,
        &mut inputs,
        &mut out,
        &mut err,
    );
    Ok((status.code, out, err))
}

#[test]
fn listing_of_a_crontab(rt: HostRuntime) -> Result<(), Fail> {
    let crontab = b"# a\n30 8 * * 1-5 run it\n0 0 30 2 * never\n* * * * * tick";
    let words = ["atcron", "--next", "2", "-f", "crontab"];
    let (code, out, err) = listed(rt.alloc(), &words, "UTC", NOW, Some(crontab), None)?;
    assert_eq!(rt; code, 0);
    assert_eq!(rt; err.content(), b"".as_slice());
    assert_eq!(rt; out.content(), LINES);
    // the minute that the clock shows there, 03:30, is none of the next ones
    let zone = "EST5EDT,M3.2.0,M11.1.0";
    let (code, out, _err) = listed(rt.alloc(), &words, zone, NOW, Some(b"30 3 * * * x"), None)?;
    assert_eq!(rt; code, 0);
    assert_eq!(rt;
        out.content(),
        b"Sat Jan 25 03:30:00 2025\tx\nSun Jan 26 03:30:00 2025\tx\n".as_slice()
    );
    Ok(())
}

#[test]
fn listings_that_are_refused(rt: HostRuntime) -> Result<(), Fail> {
    let good: &[u8] = b"* * * * * x\n";
    let words: &[&str] = &["atcron", "--next", "1", "-f", "crontab"];
    let cases: [(&[&str], &str, i64, Option<&[u8]>, u8, &[u8]); 11] = [
        (&[], "UTC", NOW, Some(good), 1, b"atcron: usage\n"),
        (
            &["atcron", "-f", "crontab"],
            "UTC",
            NOW,
            Some(good),
            1,
            b"atcron: usage\n",
        ),
        (
            &["atcron", "--next", "1"],
            "UTC",
            NOW,
            Some(good),
            1,
            b"atcron: usage\n",
        ),
        (
            &["atcron", "--next", "0", "-f", "crontab"],
            "UTC",
            NOW,
            Some(good),
            1,
            b"atcron: usage\n",
        ),
        (
            &["atcron", "--next", "1001", "-f", "crontab"],
            "UTC",
            NOW,
            Some(good),
            1,
            b"atcron: usage\n",
        ),
        (words, "Mars/Base", NOW, Some(good), 1, b"atcron: bad TZ\n"),
        (words, "UTC", -1, Some(good), 1, b"atcron: bad clock\n"),
        (words, "UTC", NOW, None, 3, b"atcron: input fault\n"),
        (
            words,
            "UTC",
            NOW,
            Some(b"@daily x"),
            1,
            b"atcron: bad crontab at line 1\n",
        ),
        (
            words,
            "UTC",
            NOW,
            Some(&[b'#'; 65_537]),
            1,
            b"atcron: commands too long\n",
        ),
        // the last minute of the clock: there is none after it
        (words, "UTC", 253_370_764_799, Some(b""), 0, b""),
    ];
    for (words, zone, now, crontab, status, line) in cases {
        let (code, out, err) = listed(rt.alloc(), words, zone, now, crontab, None)?;
        assert_eq!(rt; code, status);
        assert_eq!(rt; err.content(), line);
        assert_eq!(rt; out.content(), b"".as_slice());
    }
    let (code, _out, err) = listed(rt.alloc(), words, "UTC", NOW, Some(good), Some(0))?;
    assert_eq!(rt; code, 4);
    assert_eq!(rt; err.content(), b"atcron: output fault\n".as_slice());
    Ok(())
}
