//! Numbers in the texts of the system.
ghost use Rattle.std.specs.Prelude.{◌≡◌, ◌≤◌, ◌<◌, ◌^◌, IsTrue, length};
ghost use Rattle.std.specs.List.{list_all};
ghost use Rattle.std.specs.Char.{is_ascii_digit};
ghost use Rattle.load_reading.specs.Load.{number_of_digits};
ghost use Rattle.caller_environment.specs.Fields.{is_short_number, user_number};

// The greatest number of digits of a user number.
const MOST_DIGITS: usize = 10;

/// The user number that decimal digits write.
pub(crate) fn user_number(digits: &[u8]) -> Option<u32>
    ensures { result ≡ user_number digits.now }
{
    if !is_short_number(digits) {
        return None;
    }
    let number = number_of_decimals(digits);
    if number > u64::from(u32::MAX) {
        return None;
    }
    Some(number as u32)
}

fn is_short_number(digits: &[u8]) -> bool
    ensures { result ≡ is_short_number digits.now }
{
    !digits.is_empty() && digits.len() <= MOST_DIGITS && are_digits(digits)
}

fn are_digits(bytes: &[u8]) -> bool
    ensures { result ≡ list_all is_ascii_digit bytes.now }
{
    bytes.iter().all(|byte| byte.is_ascii_digit())
}

// The number that these digits write.
fn number_of_decimals(digits: &[u8]) -> u64
    requires each { IsTrue (list_all is_ascii_digit digits.now) }
    requires few { length digits.now ≤ MOST_DIGITS }
    ensures { result ≡ number_of_digits digits.now }
{
    let mut number = 0;
    for byte in digits {
        number = number * 10 + u64::from(*byte - b'0');
    }
    number
}
