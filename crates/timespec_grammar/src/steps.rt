//! One token more: what may follow what was read so far.
ghost use Rattle.std.specs.Prelude.{◌≡◌};
ghost use Rattle.timespec_grammar.specs.Grammar.{timespec_of};
ghost use Rattle.timespec_grammar.specs.inside.Steps.{step, timespec_read, begin, after_colon, after_date, after_time, after_half, after_minute, after_hour, after_month, after_day, after_plus, after_count};

use crate::numbers::{
    is_count, is_date_number, is_day_number, is_hour, is_hour_minute, is_minute, is_month,
    is_twelve, is_weekday_number,
};
use crate::numeric::{
    after_dash, after_dot, after_number, after_slash, day_due, second_dash, second_dot,
    second_slash, year_due,
};
use crate::read::Read;
use crate::{Clock, DatePart, Increment, Timespec};
use timespec_lexer::Token;

/// What is read with one token more, if it may follow.
pub fn step(read: Read, token: Token) -> Option<Read>
    ensures { result ≡ step read token }
{
    match read {
        Read::Nothing => begin(token),
        Read::Hour(hour) => after_hour(hour, token),
        Read::HourColon(hour) => after_colon(hour, token),
        Read::HourMinute(hour, minute) => after_minute(hour, minute, token),
        Read::Half(hour, minute) => after_half(hour, minute, token),
        Read::Timed(clock) => after_time(clock, token),
        Read::MonthNamed(clock, month) => after_month(clock, month, token),
        Read::DayNamed(clock, month, day) => after_day(clock, month, day, token),
        Read::YearDue(clock, month, day) => year_due(clock, month, day, token),
        Read::DateNumber(clock, digits, value) => after_number(clock, digits, value, token),
        Read::MonthSlash(clock, month) => after_slash(clock, month, token),
        Read::SlashDay(clock, month, day) => second_slash(clock, month, day, token),
        Read::DayDot(clock, day) => after_dot(clock, day, token),
        Read::DotMonth(clock, month, day) => second_dot(clock, month, day, token),
        Read::YearDash(clock, year) => after_dash(clock, year, token),
        Read::DashMonth(clock, month, year) => second_dash(clock, month, year, token),
        Read::DayDue(clock, month, year) => day_due(clock, month, year, token),
        Read::Dated(clock, date) => after_date(clock, date, token),
        Read::Added(clock, date) => after_plus(clock, date, token),
        Read::Counted(clock, date, count) => after_count(clock, date, count, token),
        Read::Following(clock, date) => after_count(clock, date, 1, token),
        Read::Whole(_) => None,
    }
}

/// The timespec that was read, if the tokens may end there.
pub fn timespec_read(read: Read) -> Option<Timespec>
    ensures { result ≡ timespec_read read }
{
    match read {
        Read::Hour(hour) => Some(plain_timespec(at(hour, 0, false), DatePart::Absent)),
        Read::HourMinute(hour, minute) => Some(plain_timespec(
            at(hour, minute, false),
            DatePart::Absent,
        )),
        Read::Half(hour, minute) => Some(plain_timespec(at(hour, minute, false), DatePart::Absent)),
        Read::Timed(clock) => Some(plain_timespec(clock, DatePart::Absent)),
        Read::DayNamed(clock, month, day) => Some(plain_timespec(
            clock,
            month_day(month, day, None),
        )),
        Read::Dated(clock, date) => Some(plain_timespec(clock, date)),
        Read::Whole(spec) => Some(spec),
        _ => None,
    }
}

// An hour and a minute of the 24-hour clock.
fn at(hour: u8, minute: u8, utc: bool) -> Clock
    ensures { result ≡ Clock.At hour minute utc }
{
    Clock::At { hour, minute, utc }
}

// A day of a month.
pub(crate) fn month_day(month: u8, day: u8, year: Option<u16>) -> DatePart
    ensures { result ≡ DatePart.MonthDay month day year }
{
    DatePart::MonthDay { month, day, year }
}

// A timespec without an increment.
fn plain_timespec(clock: Clock, date: DatePart) -> Timespec
    ensures { result ≡ timespec_of clock date None }
{
    Timespec {
        clock,
        date,
        increment: None,
    }
}

// The first token: an hour, an hour and a minute, or a named time.
fn begin(token: Token) -> Option<Read>
    ensures { result ≡ begin token }
{
    match token {
        Token::Number { digits, value } if is_hour(digits, value) => Some(Read::Hour(value as u8)),
        Token::Number { digits, value } if is_hour_minute(digits, value) => {
            Some(Read::HourMinute((value / 100) as u8, (value % 100) as u8))
        }
        Token::Now => Some(Read::Dated(Clock::Now, DatePart::Absent)),
        Token::Noon => Some(Read::Timed(at(12, 0, false))),
        Token::Midnight => Some(Read::Timed(at(0, 0, false))),
        Token::Teatime => Some(Read::Timed(at(16, 0, false))),
        _ => None,
    }
}

// The minute after an hour and a colon.
fn after_colon(hour: u8, token: Token) -> Option<Read>
    ensures { result ≡ after_colon hour token }
{
    match token {
        Token::Number { digits, value } if is_minute(digits, value) => {
            Some(Read::HourMinute(hour, value as u8))
        }
        _ => None,
    }
}

// A colon, or what follows an hour and a minute.
fn after_hour(hour: u8, token: Token) -> Option<Read>
    ensures { result ≡ after_hour hour token }
{
    match token {
        Token::Colon => Some(Read::HourColon(hour)),
        _ => after_minute(hour, 0, token),
    }
}

// A half of the day, or what follows a time without its zone.
fn after_minute(hour: u8, minute: u8, token: Token) -> Option<Read>
    ensures { result ≡ after_minute hour minute token }
{
    match token {
        Token::Am if is_twelve(hour) => Some(Read::Half(hour % 12, minute)),
        Token::Pm if is_twelve(hour) => Some(Read::Half(hour % 12 + 12, minute)),
        _ => after_half(hour, minute, token),
    }
}

// The zone, or what follows a whole time.
fn after_half(hour: u8, minute: u8, token: Token) -> Option<Read>
    ensures { result ≡ after_half hour minute token }
{
    match token {
        Token::Utc => Some(Read::Timed(at(hour, minute, true))),
        _ => after_time(at(hour, minute, false), token),
    }
}

// A date, or what follows one.
fn after_time(clock: Clock, token: Token) -> Option<Read>
    ensures { result ≡ after_time clock token }
{
    match token {
        Token::Month(month) if is_month(month) => Some(Read::MonthNamed(clock, month)),
        Token::Weekday(day) if is_weekday_number(day) => Some(Read::Dated(
            clock,
            DatePart::Weekday(day),
        )),
        Token::Number { digits, value } if is_date_number(digits, value) => {
            Some(Read::DateNumber(clock, digits, value))
        }
        Token::Today => Some(Read::Dated(clock, DatePart::Today)),
        Token::Tomorrow => Some(Read::Dated(clock, DatePart::Tomorrow)),
        _ => after_date(clock, DatePart::Absent, token),
    }
}

// The day after a month.
fn after_month(clock: Clock, month: u8, token: Token) -> Option<Read>
    ensures { result ≡ after_month clock month token }
{
    match token {
        Token::Number { digits, value } if is_day_number(digits, value) => {
            Some(Read::DayNamed(clock, month, value as u8))
        }
        _ => None,
    }
}

// A comma, or what follows a date.
fn after_day(clock: Clock, month: u8, day: u8, token: Token) -> Option<Read>
    ensures { result ≡ after_day clock month day token }
{
    match token {
        Token::Comma => Some(Read::YearDue(clock, month, day)),
        _ => after_date(clock, month_day(month, day, None), token),
    }
}

// The first token of an increment.
fn after_date(clock: Clock, date: DatePart, token: Token) -> Option<Read>
    ensures { result ≡ after_date clock date token }
{
    match token {
        Token::Plus => Some(Read::Added(clock, date)),
        Token::Next => Some(Read::Following(clock, date)),
        _ => None,
    }
}

// The count after a plus.
fn after_plus(clock: Clock, date: DatePart, token: Token) -> Option<Read>
    ensures { result ≡ after_plus clock date token }
{
    match token {
        Token::Number { digits, value } if is_count(digits, value) => {
            Some(Read::Counted(clock, date, value))
        }
        _ => None,
    }
}

// The unit that ends an increment.
fn after_count(clock: Clock, date: DatePart, count: u32, token: Token) -> Option<Read>
    ensures { result ≡ after_count clock date count token }
{
    match token {
        Token::Unit(period) => {
            let increment = Some(Increment { count, period });
            Some(Read::Whole(Timespec {
                clock,
                date,
                increment,
            }))
        }
        _ => None,
    }
}
