//! Texts with the timespecs that they spell, and with the places at which they are refused.
use timespec_grammar::{Clock, DatePart, Increment, Timespec, parse};
use timespec_lexer::{Period, tokens};

fn spec_of(text: &str) -> Option<Timespec> {
    let Ok(placed) = tokens(text.as_bytes()) else {
        return None;
    };
    parse(placed.as_slice()).ok()
}

/// The byte at which a text is refused: where the lexer stops, else where the grammar does.
fn refusal_of(text: &str) -> Option<u64> {
    match tokens(text.as_bytes()) {
        Err(fault) => Some(fault.place),
        Ok(placed) => match parse(placed.as_slice()) {
            Ok(_) => None,
            Err(fault) => match placed.get(fault.token) {
                Some(stop) => Some(stop.place),
                None => Some(text.len() as u64),
            },
        },
    }
}

fn at(hour: u8, minute: u8) -> Clock {
    let utc = false;
    Clock::At { hour, minute, utc }
}

fn utc(hour: u8, minute: u8) -> Clock {
    let utc = true;
    Clock::At { hour, minute, utc }
}

fn day(month: u8, day: u8, year: Option<u16>) -> DatePart {
    DatePart::MonthDay { month, day, year }
}

fn by(count: u32, period: Period) -> Option<Increment> {
    Some(Increment { count, period })
}

#[test]
fn texts_with_their_timespecs(rt: HostRuntime) {
    let absent = DatePart::Absent;
    let cases = [
        ("8 :15amjan24", at(8, 15), day(1, 24, None), None),
        (
            "17 utc+ 30minutes",
            utc(17, 0),
            absent,
            by(30, Period::Minute),
        ),
        ("5 pm FRIday", at(17, 0), DatePart::Weekday(5), None),
        ("0815am Jan 24", at(8, 15), day(1, 24, None), None),
        ("now next week", Clock::Now, absent, by(1, Period::Week)),
        (
            "noon jan 31 + 1 month",
            at(12, 0),
            day(1, 31, None),
            by(1, Period::Month),
        ),
        (
            "noon dec 31, 9998",
            at(12, 0),
            day(12, 31, Some(9998)),
            None,
        ),
        ("now", Clock::Now, absent, None),
        ("midnight", at(0, 0), absent, None),
        ("teatime tomorrow", at(16, 0), DatePart::Tomorrow, None),
        ("noon 12/25/2025", at(12, 0), day(12, 25, Some(2025)), None),
        ("1000 25.12.2025", at(10, 0), day(12, 25, Some(2025)), None),
        ("8:15 2025-12-25", at(8, 15), day(12, 25, Some(2025)), None),
        (
            "5 pm utc 1/2/0099 + 1 day",
            utc(17, 0),
            day(1, 2, Some(99)),
            by(1, Period::Day),
        ),
        ("9", at(9, 0), absent, None),
        ("2359", at(23, 59), absent, None),
        ("23:5 utc today", utc(23, 5), DatePart::Today, None),
        ("12am tomorrow", at(0, 0), DatePart::Tomorrow, None),
        ("12pm + 0 days", at(12, 0), absent, by(0, Period::Day)),
        (
            "01:05 pm utc sun next year",
            utc(13, 5),
            DatePart::Weekday(0),
            by(1, Period::Year),
        ),
        (
            "now + 999999 hours",
            Clock::Now,
            absent,
            by(999_999, Period::Hour),
        ),
    ];
    for (text, clock, date, increment) in cases {
        let spec = Timespec {
            clock,
            date,
            increment,
        };
        assert!(rt; spec_of(text) == Some(spec), "{text}");
    }
}

#[test]
fn refused_places(rt: HostRuntime) {
    let cases = [
        ("830", 0),
        ("13pm", 2),
        ("8:60", 2),
        ("0am", 1),
        ("noon jan", 8),
        ("noon xyz", 5),
        ("", 0),
        ("24:00", 0),
        ("2400", 0),
        ("noon utc", 5),
        ("now today", 4),
        ("noon + 1234567 days", 7),
        ("noon jan 1, 999", 12),
        ("noon today tomorrow", 11),
        ("noon +", 6),
        ("8:15:30", 4),
        ("noon 13/25/2025", 7),
        ("noon 25.12.25", 11),
        ("noon 25.13.2025", 8),
        ("noon 2025-12", 12),
        ("noon 12/25", 10),
        ("noon 100/1/2025", 5),
        ("noon 12-25-2025", 7),
        ("noon 12 25", 8),
        ("now 12/25/2025", 4),
        ("teatime utc", 8),
    ];
    for (text, place) in cases {
        assert!(rt; refusal_of(text) == Some(place), "{text}");
    }
}
