//! Times as they are spelled, and texts that spell none.
use std::test::Fail;
use touch_time::{TouchTime, read_touch};

#[test]
fn spelled_times_are_read(rt: HostRuntime) -> Result<(), Fail> {
    let rows = [
        ("01240815", None, (1, 24), (8, 15)),
        ("01240815.60", None, (1, 24), (8, 15)),
        ("2501240815", Some(2025), (1, 24), (8, 15)),
        ("2501240815.00", Some(2025), (1, 24), (8, 15)),
        ("202501240815", Some(2025), (1, 24), (8, 15)),
        ("202501240815.60", Some(2025), (1, 24), (8, 15)),
        ("6902290000", Some(1969), (2, 29), (0, 0)),
        ("6802302359", Some(2068), (2, 30), (23, 59)),
        ("000001010000", Some(0), (1, 1), (0, 0)),
        ("999912312359.59", Some(9999), (12, 31), (23, 59)),
    ];
    for (text, year, (month, day), (hour, minute)) in rows {
        let time = read_touch(text.as_bytes()).ok_or(text)?;
        let want = TouchTime {
            year,
            month,
            day,
            hour,
            minute,
        };
        assert_eq!(rt; time, want, "{text}");
    }
    Ok(())
}

#[test]
fn other_texts_spell_none(rt: HostRuntime) {
    for &text in &[
        "",
        "0124081",
        "012408155",
        "00010000",
        "13010000",
        "01000000",
        "01320000",
        "01012400",
        "01010060",
        "202501240815.61",
        "202501240815.6",
        "202501240815.",
        "202501240815:00",
        "20250124 0815",
        "+2501240815",
        "12025012408155",
    ] {
        assert!(rt; read_touch(text.as_bytes()).is_none(), "{text}");
    }
}
