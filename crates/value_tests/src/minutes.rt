//! Worked minutes and times in UTC and by a rule, and texts of TZ.
use civil_minute::{CivilMinute, DateFault, Zone, civil_of, minute_of, minute_of_touch, zone_of};
use host_calls::{LAST_MINUTE, is_clock_second};
use std::alloc::{AllocError, Global};
use std::process::Abort;
use timespec_grammar::parse;
use timespec_lexer::tokens;
use touch_time::read_touch;

const EASTERN: &str = "EST5EDT,M3.2.0,M11.1.0";

// 2025-01-01 00:00:00 UTC, a Wednesday.
const NEW_YEAR: i64 = 1_735_689_600;

// The minute that a text means, or `None` where the text is no timespec.
fn meant(alloc: Global, text: &str, now: i64, zone: &Zone) -> Option<Result<u32, DateFault>> {
    let Ok(placed) = tokens(text.as_bytes()) else {
        return None;
    };
    let Ok(spec) = parse(placed.as_slice()) else {
        return None;
    };
    if !is_clock_second(now) || matches!(zone, Zone::Unreadable) {
        return None;
    }
    Some(minute_of(alloc, &spec, now, zone))
}

// The same of a text of `-t`.
fn touched(alloc: Global, text: &str, now: i64) -> Option<Result<u32, DateFault>> {
    let time = read_touch(text.as_bytes())?;
    if !is_clock_second(now) {
        return None;
    }
    Some(minute_of_touch(alloc, &time, now, &Zone::Utc))
}

fn civil(year: i16, date: (u8, u8), time: (u8, u8), weekday: u8) -> CivilMinute {
    CivilMinute {
        year,
        month: date.0,
        day: date.1,
        hour: time.0,
        minute: time.1,
        second: 0,
        weekday,
    }
}

#[test]
fn minutes_have_their_civil_times(rt: HostRuntime) -> Result<(), AllocError> {
    let eastern = zone_of(rt.alloc(), Some(EASTERN))?;
    let rows = [
        (0, Zone::Utc, civil(1970, (1, 1), (0, 0), 4)),
        (28_928_160, Zone::Utc, civil(2025, (1, 1), (0, 0), 3)),
        (28_961_775, Zone::Utc, civil(2025, (1, 24), (8, 15), 5)),
        (29_012_400, Zone::Utc, civil(2025, (2, 28), (12, 0), 5)),
        (4_222_845_360, Zone::Utc, civil(9998, (12, 31), (12, 0), 4)),
        (LAST_MINUTE, Zone::Utc, civil(9998, (12, 31), (23, 59), 4)),
        (28_928_160, eastern, civil(2024, (12, 31), (19, 0), 2)),
        (28_929_180, eastern, civil(2025, (1, 1), (12, 0), 3)),
        (29_025_090, eastern, civil(2025, (3, 9), (3, 30), 0)),
        (29_367_690, eastern, civil(2025, (11, 2), (1, 30), 0)),
    ];
    for (minute, zone, want) in rows {
        assert!(rt; minute <= LAST_MINUTE && !matches!(zone, Zone::Unreadable));
        assert_eq!(rt;
            civil_of(rt.alloc(), minute, &zone)?,
            want,
            "minute {minute}"
        );
    }
    Ok(())
}

#[test]
fn zone_texts_are_distinguished(rt: HostRuntime) -> Result<(), AllocError> {
    for &utc in &[None, Some(""), Some("UTC")] {
        assert!(rt; matches!(zone_of(rt.alloc(), utc)?, Zone::Utc));
    }
    for &rule in &[
        EASTERN,
        "CET-1CEST,M3.5.0,M10.5.0/3",
        "JST-9",
        "<+03>-3",
        "UTC0",
    ] {
        assert!(rt;
            matches!(zone_of(rt.alloc(), Some(rule))?, Zone::Rules(_)),
            "{rule}"
        );
    }
    for &unreadable in &["Mars/Base", "utc", ":UTC", "EST5EDT", "EST", " "] {
        assert!(rt;
            matches!(zone_of(rt.alloc(), Some(unreadable))?, Zone::Unreadable),
            "{unreadable}"
        );
    }
    Ok(())
}

// Each text means its minute, or why it means none, at this second by the zone of these rules.
fn assert_meant(
    rt: &impl Abort,
    alloc: Global,
    rows: &[(&str, i64, Option<&str>, Result<u32, DateFault>)],
) -> Result<(), AllocError> {
    for (text, now, rules, want) in rows {
        let zone = zone_of(alloc, *rules)?;
        assert_eq!(rt;
            meant(alloc, text, *now, &zone),
            Some(*want),
            "{text} at {now}"
        );
    }
    Ok(())
}

#[test]
fn times_mean_their_minutes(rt: HostRuntime) -> Result<(), AllocError> {
    let noon_passed = NEW_YEAR + 12 * 3_600 + 1;
    let rows = [
        ("8 :15amjan24", NEW_YEAR, None, Ok(28_961_775)),
        ("5 pm FRIday", NEW_YEAR, None, Ok(28_932_060)),
        ("17 utc+ 30minutes", NEW_YEAR, Some(EASTERN), Ok(28_929_210)),
        ("midnight", NEW_YEAR, None, Ok(28_928_160)),
        ("midnight", NEW_YEAR + 1, None, Ok(28_929_600)),
        ("noon wed", NEW_YEAR, None, Ok(28_928_880)),
        ("noon wed", noon_passed, None, Ok(28_938_960)),
        ("noon wed", noon_passed - 1, None, Ok(28_938_960)),
        ("noon wed", noon_passed - 2, None, Ok(28_928_880)),
        ("midnight wed", NEW_YEAR, None, Ok(28_938_240)),
        ("noon today", NEW_YEAR, None, Ok(28_928_880)),
        ("noon tomorrow", NEW_YEAR, None, Ok(28_930_320)),
        ("now + 1 hour", NEW_YEAR, None, Ok(28_928_220)),
        ("now + 2 days", NEW_YEAR, None, Ok(28_931_040)),
        ("now + 1 year", NEW_YEAR, None, Ok(29_453_760)),
        ("noon feb 29, 2028 + 1 year", NEW_YEAR, None, Ok(31_116_240)),
        ("now next week", NEW_YEAR, None, Ok(28_938_240)),
        ("noon jan 31 + 1 month", NEW_YEAR, None, Ok(29_012_400)),
        ("teatime tomorrow", NEW_YEAR, None, Ok(28_930_560)),
    ];
    assert_meant(&rt, rt.alloc(), &rows)
}

#[test]
fn dates_mean_their_minutes(rt: HostRuntime) -> Result<(), AllocError> {
    let rows = [
        ("noon 12/25/2025", NEW_YEAR, None, Ok(29_444_400)),
        ("1000 25.12.2025", NEW_YEAR, None, Ok(29_444_280)),
        ("8:15 2025-12-25", NEW_YEAR, None, Ok(29_444_175)),
        ("noon 02/30/2025", NEW_YEAR, None, Err(DateFault::NoSuchDay)),
        ("noon feb 29", NEW_YEAR, None, Err(DateFault::NoSuchDay)),
        ("noon feb 30", NEW_YEAR, None, Err(DateFault::NoSuchDay)),
        ("8am jan 24", 1_737_712_800, None, Err(DateFault::Past)),
        ("noon jan 24", 1_738_368_000, None, Ok(29_487_600)),
        ("8am jan 24, 2026", 1_737_712_800, None, Ok(29_487_360)),
        ("noon", NEW_YEAR, Some(EASTERN), Ok(28_929_180)),
        ("2:30 am mar 9", NEW_YEAR, Some(EASTERN), Ok(29_025_090)),
        ("1:30 am nov 2", NEW_YEAR, Some(EASTERN), Ok(29_367_690)),
        ("now", 1_762_065_000, Some(EASTERN), Ok(29_367_750)),
        (
            "now + 0 days",
            1_762_065_000,
            Some(EASTERN),
            Err(DateFault::Past),
        ),
        ("noon dec 31, 9998", NEW_YEAR, None, Ok(4_222_845_360)),
        (
            "noon jan 1, 9999",
            NEW_YEAR,
            None,
            Err(DateFault::OutOfRange),
        ),
        (
            "now + 999999 years",
            NEW_YEAR,
            None,
            Err(DateFault::OutOfRange),
        ),
        (
            "noon jan 1, 1969 + 999999 hours",
            NEW_YEAR,
            None,
            Err(DateFault::OutOfRange),
        ),
    ];
    assert_meant(&rt, rt.alloc(), &rows)
}

#[test]
fn touched_times_mean_their_minutes(rt: HostRuntime) {
    let february = 1_738_368_000;
    for &(text, now, want) in &[
        ("202501240815.60", NEW_YEAR, Some(Ok(28_961_775))),
        ("202501240815.61", NEW_YEAR, None),
        ("01240815", NEW_YEAR, Some(Ok(28_961_775))),
        ("02290000", NEW_YEAR, Some(Err(DateFault::NoSuchDay))),
        ("01010000", february, Some(Err(DateFault::Past))),
        ("999901010000", NEW_YEAR, Some(Err(DateFault::OutOfRange))),
    ] {
        assert_eq!(rt; touched(rt.alloc(), text, now), want, "{text} at {now}");
    }
}
