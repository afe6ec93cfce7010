//! The next minutes of entries, by a search of each minute with the rule of POSIX in another language.
use crate::readings::read;
use civil_minute::{Zone, zone_of};
use cron_turn::next_due;
use std::test::Fail;

// Fri Jan 24 2025, 08:30 UTC.
const MINUTE: u32 = 28_961_790;

// The zone of New York since 2007.
const EASTERN: &str = "EST5EDT,M3.2.0,M11.1.0";

#[test]
fn next_minutes(rt: HostRuntime) -> Result<(), Fail> {
    let cases: [(&str, &str, &[u32]); 11] = [
        ("UTC", "* * * * * x", &[28_961_790, 28_961_791, 28_961_792]),
        (
            "UTC",
            "30 8 * * 1-5 x",
            &[28_961_790, 28_966_110, 28_967_550],
        ),
        ("UTC", "0 0 29 2 * x", &[30_589_920, 32_693_760]),
        // a day of the month and a weekday are either of them
        (
            "UTC",
            "0 12 29 2 1 x",
            &[28_966_320, 28_976_400, 28_986_480],
        ),
        ("UTC", "0 0 31 1,4 * x", &[28_971_360, 29_496_960]),
        // the hour that New York skips in 2025, and the one that it has twice
        (EASTERN, "30 2 9 3 * x", &[29_550_630]),
        (
            EASTERN,
            "30 1 2 11 * x",
            &[29_367_690, 29_367_750, 29_893_350],
        ),
        (
            EASTERN,
            "0 0 1,15 * 1 x",
            &[28_965_900, 28_973_100, 28_975_980],
        ),
        // zones that are far from UTC
        ("<+14>-14", "0 0 1 1 * x", &[29_452_920, 29_978_520]),
        ("<-1130>11:30", "59 23 31 12 * x", &[29_454_449, 29_980_049]),
        ("XXX24:59:59", "15 3 1 3 * x", &[29_014_815]),
    ];
    for (rule, text, wanted) in cases {
        let zone = zone_of(rt.alloc(), Some(rule))?;
        assert!(rt; !matches!(zone, Zone::Unreadable), "{rule}");
        let entries = read(&rt, rt.alloc(), text.as_bytes())?;
        let entry = entries.as_slice().first().ok_or("no entry")?;
        let count = u32::try_from(wanted.len()).expect(&rt, "a few minutes");
        let found = next_due(rt.alloc(), entry, &zone, MINUTE, count)?;
        assert_eq!(rt; found.as_slice(), wanted, "{rule}: {text}");
    }
    Ok(())
}

#[test]
fn minutes_that_never_come(rt: HostRuntime) -> Result<(), Fail> {
    for &text in &["0 0 30 2 * x", "0 0 31 4,6,9,11 * x"] {
        let entries = read(&rt, rt.alloc(), text.as_bytes())?;
        let entry = entries.as_slice().first().ok_or("no entry")?;
        let found = next_due(rt.alloc(), entry, &Zone::Utc, MINUTE, 1)?;
        assert!(rt; found.is_empty(), "{text}");
    }
    Ok(())
}
