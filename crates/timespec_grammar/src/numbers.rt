//! Which numbers are allowed where.
ghost use Rattle.std.specs.Prelude.{◌≡◌, ◌≤◌, ◌/◌, ◌%◌, IsTrue};
ghost use Rattle.timespec_grammar.specs.Numbers.{is_hour, is_hour_minute, is_twelve, is_minute, is_month, is_month_number, is_weekday_number, is_day_number, is_year, is_date_number, is_count};

/// The greatest count of an increment.
pub const MAX_COUNT: u32 = 999_999;

/// The most digits that such a count is written in.
pub const MAX_COUNT_DIGITS: u8 = 6;

/// An hour of the 24-hour clock in one or two digits.
pub fn is_hour(digits: u8, value: u32) -> bool
    ensures test { result ≡ is_hour digits value }
    ensures small { IsTrue result → value ≤ 23 }
{
    digits == 1 && value <= 9 || digits == 2 && value <= 23
}

/// Two digits of an hour and two of a minute.
pub fn is_hour_minute(digits: u8, value: u32) -> bool
    ensures test { result ≡ is_hour_minute digits value }
    ensures hour { IsTrue result → value / 100 ≤ 23 }
    ensures minute { IsTrue result → value % 100 ≤ 59 }
{
    digits == 4 && value / 100 <= 23 && value % 100 <= 59
}

/// An hour that the 12-hour clock has.
pub fn is_twelve(hour: u8) -> bool
    ensures { result ≡ is_twelve hour }
{
    1 <= hour && hour <= 12
}

/// A minute in one or two digits.
pub fn is_minute(digits: u8, value: u32) -> bool
    ensures test { result ≡ is_minute digits value }
    ensures small { IsTrue result → value ≤ 59 }
{
    digits == 1 && value <= 9 || digits == 2 && value <= 59
}

/// A month, of which January is 1.
pub fn is_month(month: u8) -> bool
    ensures { result ≡ is_month month }
{
    1 <= month && month <= 12
}

/// A day of the week, of which Sunday is 0.
pub fn is_weekday_number(day: u8) -> bool
    ensures { result ≡ is_weekday_number day }
{
    day <= 6
}

/// A day of a month in one or two digits.
pub fn is_day_number(digits: u8, value: u32) -> bool
    ensures test { result ≡ is_day_number digits value }
    ensures small { IsTrue result → value ≤ 99 }
{
    1 <= digits && digits <= 2 && value <= 99
}

/// A month in one or two digits.
pub fn is_month_number(digits: u8, value: u32) -> bool
    ensures test { result ≡ is_month_number digits value }
    ensures small { IsTrue result → value ≤ 12 }
{
    (digits == 1 && value <= 9 || digits == 2) && 1 <= value && value <= 12
}

/// A year in four digits.
pub fn is_year(digits: u8, value: u32) -> bool
    ensures test { result ≡ is_year digits value }
    ensures small { IsTrue result → value ≤ 9999 }
{
    digits == 4 && value <= 9999
}

/// A number that a date may begin with: a day, as which each month counts too, or a year.
pub fn is_date_number(digits: u8, value: u32) -> bool
    ensures { result ≡ is_date_number digits value }
{
    is_day_number(digits, value) || is_year(digits, value)
}

/// A count of periods, which may be 0.
pub fn is_count(digits: u8, value: u32) -> bool
    ensures { result ≡ is_count digits value }
{
    1 <= digits && digits <= MAX_COUNT_DIGITS && value <= MAX_COUNT
}
