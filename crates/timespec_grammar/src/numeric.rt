//! Dates in numbers: `12/25/2025`, `25.12.2025` and `2025-12-25`, and the year after a month's name and a day.
ghost use Rattle.std.specs.Prelude.{◌≡◌};
ghost use Rattle.timespec_grammar.specs.inside.Steps.{after_dash, after_dot, after_number, after_slash, day_due, second_dash, second_dot, second_slash, year_due};

use crate::Clock;
use crate::numbers::{is_day_number, is_month_number, is_year};
use crate::read::Read;
use crate::steps::month_day;
use timespec_lexer::Token;

/// The year after a month and a day.
pub fn year_due(clock: Clock, month: u8, day: u8, token: Token) -> Option<Read>
    ensures { result ≡ year_due clock month day token }
{
    match token {
        Token::Number { digits, value } if is_year(digits, value) => {
            let year = Some(value as u16);
            Some(Read::Dated(clock, month_day(month, day, year)))
        }
        _ => None,
    }
}

/// The mark after a number that begins a date. It says whether that was a month, a day or a year.
pub fn after_number(clock: Clock, digits: u8, value: u32, token: Token) -> Option<Read>
    ensures { result ≡ after_number clock digits value token }
{
    match token {
        Token::Slash if is_month_number(digits, value) => Some(Read::MonthSlash(
            clock,
            value as u8,
        )),
        Token::Dot if is_day_number(digits, value) => Some(Read::DayDot(clock, value as u8)),
        Token::Dash if is_year(digits, value) => Some(Read::YearDash(clock, value as u16)),
        _ => None,
    }
}

/// The day after a month and a slash.
pub fn after_slash(clock: Clock, month: u8, token: Token) -> Option<Read>
    ensures { result ≡ after_slash clock month token }
{
    match token {
        Token::Number { digits, value } if is_day_number(digits, value) => {
            Some(Read::SlashDay(clock, month, value as u8))
        }
        _ => None,
    }
}

/// The second slash.
pub fn second_slash(clock: Clock, month: u8, day: u8, token: Token) -> Option<Read>
    ensures { result ≡ second_slash clock month day token }
{
    match token {
        Token::Slash => Some(Read::YearDue(clock, month, day)),
        _ => None,
    }
}

/// The month after a day and a dot.
pub fn after_dot(clock: Clock, day: u8, token: Token) -> Option<Read>
    ensures { result ≡ after_dot clock day token }
{
    match token {
        Token::Number { digits, value } if is_month_number(digits, value) => {
            Some(Read::DotMonth(clock, value as u8, day))
        }
        _ => None,
    }
}

/// The second dot.
pub fn second_dot(clock: Clock, month: u8, day: u8, token: Token) -> Option<Read>
    ensures { result ≡ second_dot clock month day token }
{
    match token {
        Token::Dot => Some(Read::YearDue(clock, month, day)),
        _ => None,
    }
}

/// The month after a year and a dash.
pub fn after_dash(clock: Clock, year: u16, token: Token) -> Option<Read>
    ensures { result ≡ after_dash clock year token }
{
    match token {
        Token::Number { digits, value } if is_month_number(digits, value) => {
            Some(Read::DashMonth(clock, value as u8, year))
        }
        _ => None,
    }
}

/// The second dash.
pub fn second_dash(clock: Clock, month: u8, year: u16, token: Token) -> Option<Read>
    ensures { result ≡ second_dash clock month year token }
{
    match token {
        Token::Dash => Some(Read::DayDue(clock, month, year)),
        _ => None,
    }
}

/// The day after a year and a month.
pub fn day_due(clock: Clock, month: u8, year: u16, token: Token) -> Option<Read>
    ensures { result ≡ day_due clock month year token }
{
    match token {
        Token::Number { digits, value } if is_day_number(digits, value) => {
            Some(Read::Dated(clock, month_day(month, value as u8, Some(year))))
        }
        _ => None,
    }
}
