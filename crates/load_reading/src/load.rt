//! The first field of a load text, such as `0.42`.
ghost use Rattle.std.specs.Prelude.{◌≡◌, ℕ, ◌+◌, ◌-◌, ◌*◌, ◌<◌, ◌≤◌, ◌^◌, IsTrue, IfSome, IfNone, length};
ghost use Rattle.std.specs.List.{list_all, prefix_len};
ghost use Rattle.std.specs.Char.{is_ascii_digit};
ghost use Rattle.load_reading.specs.Load.{ends_field, number_of_digits, SpellsFraction, SpellsLoad};

/// The greatest number of digits before the point.
pub const MAX_DIGITS: usize = 7;

/// The load that the first field tells, in hundredths.
pub fn hundredths(text: &[u8]) -> Option<u32>
    ensures some { IfSome result (SpellsLoad text.now) }
    ensures none { IfNone result ((load : ℕ) → ¬ SpellsLoad text.now load) }
{
    let count = digit_count(text);
    if count == 0 || count > MAX_DIGITS {
        return None;
    }
    let (whole, rest) = text.split_at(count);
    let hundredths = fraction(rest)?;
    Some(number_of_digits(whole) * 100 + hundredths)
}

fn digit_count(text: &[u8]) -> usize
    ensures { result ≡ prefix_len is_ascii_digit text.now }
{
    text.iter().take_while(|byte| byte.is_ascii_digit()).count()
}

// The two digits after the point at the start.
fn fraction(text: &[u8]) -> Option<u32>
    ensures some { IfSome result (SpellsFraction text.now) }
    ensures none { IfNone result ((number : ℕ) → ¬ SpellsFraction text.now number) }
    ensures small { IfSome result (λ number. number < 100) }
{
    match text {
        [b'.', tenth, hundredth, rest @ ..]
            if tenth.is_ascii_digit() && hundredth.is_ascii_digit() && is_end(rest) => {
            Some(digit(*tenth) * 10 + digit(*hundredth))
        }
        _ => None,
    }
}

fn is_end(text: &[u8]) -> bool
    ensures { result ≡ ends_field text.now }
{
    match text {
        [] => true,
        [byte, ..] => *byte == b' ' || *byte == b'\n',
    }
}

fn digit(byte: u8) -> u32
    requires { IsTrue (is_ascii_digit byte) }
    ensures value { result ≡ byte - 48 }
    ensures small { result < 10 }
{
    u32::from(byte - b'0')
}

// The number that these digits spell.
fn number_of_digits(digits: &[u8]) -> u32
    requires each { IsTrue (list_all is_ascii_digit digits.now) }
    requires few { length digits.now ≤ MAX_DIGITS }
    ensures value { result ≡ number_of_digits digits.now }
    ensures small { result < 10 ^ MAX_DIGITS }
{
    let mut number = 0;
    for byte in digits {
        number = number * 10 + digit(*byte);
    }
    number
}
