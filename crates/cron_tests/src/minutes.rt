//! Entries and the minutes at which they are due.
use crate::readings::read;
use civil_minute::CivilMinute;
use cron_minutes::matches;
use std::test::Fail;

// A midnight of 2025.
fn midnight(month: u8, day: u8, weekday: u8) -> CivilMinute {
    CivilMinute {
        year: 2025,
        month,
        day,
        hour: 0,
        minute: 0,
        second: 0,
        weekday,
    }
}

#[test]
fn days_of_an_entry(rt: HostRuntime) -> Result<(), Fail> {
    let cases: [(&str, u8, u8, u8, bool); 14] = [
        // Wed Jan 1, Mon Jan 6, Tue Jan 7 and Wed Jan 15 2025
        ("0 0 1,15 * 1 x", 1, 1, 3, true),
        ("0 0 1,15 * 1 x", 1, 6, 1, true),
        ("0 0 1,15 * 1 x", 1, 7, 2, false),
        ("0 0 1,15 * 1 x", 1, 15, 3, true),
        ("0 0 * * 1 x", 1, 6, 1, true),
        ("0 0 * * 1 x", 1, 1, 3, false),
        ("0 0 1 * * x", 1, 1, 3, true),
        ("0 0 1 * * x", 1, 6, 1, false),
        // Tue Jul 1 and Sun Jul 6 2025: a month and a weekday are either of them
        ("0 0 * 12 1-5 x", 7, 1, 2, true),
        ("0 0 * 12 1-5 x", 7, 6, 0, false),
        ("0 0 * 7 * x", 7, 6, 0, true),
        ("0 0 * 7 * x", 1, 6, 1, false),
        ("1 0 * * * x", 1, 1, 3, false),
        ("0 1 * * * x", 1, 1, 3, false),
    ];
    for (text, month, day, weekday, is_due) in cases {
        let entries = read(&rt, rt.alloc(), text.as_bytes())?;
        let entry = entries.as_slice().first().ok_or("no entry")?;
        let civil = midnight(month, day, weekday);
        assert_eq!(rt; matches(entry, &civil), is_due, "{text}");
    }
    Ok(())
}

#[test]
fn numbers_that_no_field_holds(rt: HostRuntime) -> Result<(), Fail> {
    let entries = read(&rt, rt.alloc(), b"* * * * * x")?;
    let entry = entries.as_slice().first().ok_or("no entry")?;
    for &(minute, is_due) in &[
        (0, true),
        (59, true),
        (60, false),
        (64, false),
        (255, false),
    ] {
        let mut civil = midnight(1, 1, 3);
        civil.minute = minute;
        assert_eq!(rt; matches(entry, &civil), is_due, "{minute}");
    }
    Ok(())
}
