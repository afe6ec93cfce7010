//! Dates as `date` prints them in the POSIX locale.
ghost use Rattle.std.specs.Prelude.{◌≡◌, ◌≤◌, IsTrue};
ghost use Rattle.std.specs.Fmt.{decimal};
ghost use Rattle.civil_minute.specs.Civil.{IsPrintable};
ghost use Rattle.listing_text.specs.Date.{date_text_of, weekday_text, month_text, day_tens};

use civil_minute::CivilMinute;

/// The date and the time, as `Wed Jan  1 00:00:00 2025`.
pub fn date_text(civil: &CivilMinute) -> [u8; 24]
    requires { IsPrintable civil.now }
    ensures { result ≡ date_text_of civil.now }
{
    let [w0, w1, w2] = *weekday_name(civil.weekday);
    let [m0, m1, m2] = *month_name(civil.month);
    let [y0, y1, y2, y3] = year_digits(civil.year as u16);
    [
        w0,
        w1,
        w2,
        b' ',
        m0,
        m1,
        m2,
        b' ',
        day_column(civil.day),
        b'0' + civil.day % 10,
        b' ',
        b'0' + civil.hour / 10,
        b'0' + civil.hour % 10,
        b':',
        b'0' + civil.minute / 10,
        b'0' + civil.minute % 10,
        b':',
        b'0' + civil.second / 10,
        b'0' + civil.second % 10,
        b' ',
        y0,
        y1,
        y2,
        y3,
    ]
}

fn weekday_name(weekday: u8) -> &'static [u8; 3]
    requires { weekday ≤ 6 }
    ensures { result.now ≡ weekday_text weekday }
{
    match weekday {
        0 => b"Sun",
        1 => b"Mon",
        2 => b"Tue",
        3 => b"Wed",
        4 => b"Thu",
        5 => b"Fri",
        _ => b"Sat",
    }
}

fn month_name(month: u8) -> &'static [u8; 3]
    requires low { 1 ≤ month }
    requires high { month ≤ 12 }
    ensures { result.now ≡ month_text month }
{
    match month {
        1 => b"Jan",
        2 => b"Feb",
        3 => b"Mar",
        4 => b"Apr",
        5 => b"May",
        6 => b"Jun",
        7 => b"Jul",
        8 => b"Aug",
        9 => b"Sep",
        10 => b"Oct",
        11 => b"Nov",
        _ => b"Dec",
    }
}

fn day_column(day: u8) -> u8
    ensures { result ≡ day_tens day }
{
    if day < 10 { b' ' } else { b'0' + day / 10 }
}

fn year_digits(year: u16) -> [u8; 4]
    requires low { 1000 ≤ year }
    requires high { year ≤ 9999 }
    ensures { result ≡ decimal year }
{
    [
        b'0' + (year / 1000) as u8,
        b'0' + (year / 100 % 10) as u8,
        b'0' + (year / 10 % 10) as u8,
        b'0' + (year % 10) as u8,
    ]
}
