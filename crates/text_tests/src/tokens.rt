//! Texts with their tokens and places of refusal.
use timespec_lexer::Token::{
    Am, Colon, Comma, Dash, Dot, Midnight, Month, Next, Noon, Now, Number, Plus, Pm, Slash,
    Teatime, Today, Tomorrow, Unit, Utc, Weekday,
};
use timespec_lexer::{Period, Token, tokens};

/// Whether the text is these tokens at these places.
fn reads(text: &str, wanted: &[(Token, u64)]) -> bool {
    let Ok(placed) = tokens(text.as_bytes()) else {
        return false;
    };
    let mut same = placed.len() == wanted.len();
    for (found, (token, place)) in placed.iter().zip(wanted.iter()) {
        same = same && found.token == *token && found.place == *place;
    }
    same
}

/// Whether the text is refused at this place.
fn refused(text: &str, place: u64) -> bool {
    match tokens(text.as_bytes()) {
        Ok(_) => false,
        Err(fault) => fault.place == place,
    }
}

fn number(digits: u8, value: u32) -> Token {
    Number { digits, value }
}

#[test]
fn texts_with_and_without_separators(rt: HostRuntime) {
    let eight = [
        (number(1, 8), 0),
        (Colon, 2),
        (number(2, 15), 3),
        (Am, 5),
        (Month(1), 7),
        (number(2, 24), 10),
    ];
    assert!(rt; reads("8 :15amjan24", &eight));
    let seventeen = [
        (number(2, 17), 0),
        (Utc, 3),
        (Plus, 6),
        (number(2, 30), 8),
        (Unit(Period::Minute), 10),
    ];
    assert!(rt; reads("17 utc+ 30minutes", &seventeen));
    let quarter = [
        (number(4, 815), 0),
        (Am, 4),
        (Month(1), 7),
        (number(2, 24), 11),
    ];
    assert!(rt; reads("0815am Jan 24", &quarter));
    let now = [
        (Now, 0),
        (Plus, 4),
        (number(1, 1), 6),
        (Unit(Period::Month), 8),
    ];
    assert!(rt; reads("now + 1 months", &now));
    assert!(rt; reads(" \t\n", &[]));
    let numeric = [
        (Teatime, 0),
        (number(2, 12), 7),
        (Slash, 9),
        (number(1, 5), 10),
        (Dot, 12),
        (Dash, 13),
        (number(4, 2025), 14),
    ];
    assert!(rt; reads("TeaTime12/5 .-2025", &numeric));
}

#[test]
fn keywords_of_each_kind(rt: HostRuntime) {
    let times = [
        (Noon, 0),
        (Midnight, 4),
        (Today, 12),
        (Tomorrow, 17),
        (Next, 25),
        (Pm, 29),
    ];
    assert!(rt; reads("NoonMIDNIGHTtodaytomorrownextPM", &times));
    let longest = [
        (Month(1), 0),
        (Month(1), 7),
        (Month(5), 10),
        (Weekday(6), 13),
        (Unit(Period::Minute), 21),
        (Unit(Period::Year), 28),
        (Comma, 32),
    ];
    assert!(rt; reads("januaryjanmaysaturdayminutesyear,", &longest));
}

#[test]
fn months_and_weekdays_by_number(rt: HostRuntime) {
    for &(short, long, token) in &[
        ("jan", "january", Month(1)),
        ("feb", "february", Month(2)),
        ("mar", "march", Month(3)),
        ("apr", "april", Month(4)),
        ("may", "may", Month(5)),
        ("jun", "june", Month(6)),
        ("jul", "july", Month(7)),
        ("aug", "august", Month(8)),
        ("sep", "september", Month(9)),
        ("oct", "october", Month(10)),
        ("nov", "november", Month(11)),
        ("dec", "december", Month(12)),
        ("sun", "sunday", Weekday(0)),
        ("mon", "monday", Weekday(1)),
        ("tue", "tuesday", Weekday(2)),
        ("wed", "wednesday", Weekday(3)),
        ("thu", "thursday", Weekday(4)),
        ("fri", "friday", Weekday(5)),
        ("sat", "saturday", Weekday(6)),
    ] {
        assert!(rt; reads(short, &[(token, 0)]), "{short}");
        assert!(rt; reads(long, &[(token, 0)]), "{long}");
    }
}

#[test]
fn places_of_refusal(rt: HostRuntime) {
    let cases = [
        ("noon xyz", 5),
        ("1234567890", 0),
        ("now  1234567890", 5),
        ("+ + + + + + + + + + + + + + + + +", 32),
        ("8;15", 1),
        ("noonj", 4),
        ("ja", 0),
        ("now +1;", 6),
        ("tea", 0),
    ];
    for (text, place) in cases {
        assert!(rt; refused(text, place), "{text}");
    }
    assert!(rt; tokens(b"+ + + + + + + + + + + + + + + +").is_ok());
    assert!(rt; reads("123456789", &[(number(9, 123_456_789), 0)]));
}
