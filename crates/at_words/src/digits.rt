//! Numbers in decimal digits.
ghost use Rattle.std.specs.Prelude.{◌≡◌, ◌<◌, IfSome};
ghost use Rattle.std.specs.List.{list_all};
ghost use Rattle.std.specs.Char.{is_ascii_digit};
ghost use Rattle.at_words.specs.Digits.{are_decimal_digits, fraction_of, limit_of, decimal_in, within};
ghost use Rattle.at_words.specs.Numbers.{job_number};

// The most digits of a job's number.
const MOST_DIGITS: usize = 10;

// The greatest whole part of a load.
const MAX_WHOLE_LOAD: u32 = 999_999;

/// The number of a job, from the least to the greatest.
pub fn job(text: &str, least: u32, greatest: u32) -> Option<u32>
    ensures { result ≡ job_number least greatest text.now }
{
    short(text, MOST_DIGITS, least, greatest)
}

/// The same as `number_within`, where the number is short.
pub fn short(text: &str, most: usize, least: u32, greatest: u32) -> Option<u32>
    ensures { result ≡ decimal_in most least greatest text.now }
{
    let number = number_within(text, most, u64::from(least), u64::from(greatest))?;
    Some(number as u32)
}

/// The number from the least to the greatest that so many digits at most write.
pub fn number_within(text: &str, most: usize, least: u64, greatest: u64) -> Option<u64>
    ensures { result ≡ decimal_in most least greatest text.now }
{
    if !is_digits(text, most) {
        return None;
    }
    match text.parse::<u64>() {
        Ok(number) => limited(number, least, greatest),
        Err(_) => None,
    }
}

// The number, where it is from the least to the greatest.
fn limited(number: u64, least: u64, greatest: u64) -> Option<u64>
    ensures { result ≡ within least greatest number }
{
    if least <= number && number <= greatest {
        Some(number)
    } else {
        None
    }
}

fn is_digits(text: &str, most: usize) -> bool
    ensures { result ≡ are_decimal_digits most text.now }
{
    let bytes = text.as_bytes();
    !bytes.is_empty() && bytes.len() <= most && are_all_digits(bytes)
}

fn are_all_digits(bytes: &[u8]) -> bool
    ensures { result ≡ list_all is_ascii_digit bytes.now }
{
    bytes.iter().all(|byte| byte.is_ascii_digit())
}

/// A load in hundredths, from digits with at most two places after a point.
pub fn limit(text: &str) -> Option<u32>
    ensures { result ≡ limit_of text.now }
{
    match text.split_once('.') {
        Some((whole, fraction)) => {
            let hundredths = hundredths_after_point(fraction)?;
            Some(short(whole, 6, 0, MAX_WHOLE_LOAD)? * 100 + hundredths)
        }
        None => Some(short(text, 6, 0, MAX_WHOLE_LOAD)? * 100),
    }
}

// What one or two digits after a point write.
fn hundredths_after_point(text: &str) -> Option<u32>
    ensures value { result ≡ fraction_of text.now }
    ensures few { IfSome result (λ value. value < 100) }
{
    if text.len() == 1 {
        Some(short(text, 1, 0, 9)? * 10)
    } else {
        short(text, 2, 0, 99)
    }
}
