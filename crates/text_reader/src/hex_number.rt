//! Numbers as digits.
ghost use Rattle.std.specs.Prelude.{◌≡◌, ◌<◌, ◌≤◌, ◌^◌, ℕ, IfSome, IfNone, length};
ghost use Rattle.text_reader.specs.HexDigits.{SpellsNumber, digit_at, digits_of};

use crate::{byte_of, digit_of};

/// The number that these digits are, if all of them are digits.
pub fn read_hex(bytes: &[u8]) -> Option<u64>
    requires { length bytes.now ≤ 16 }
    ensures number { IfSome result (SpellsNumber bytes.now) }
    ensures none { IfNone result ((number : ℕ) → ¬ (SpellsNumber bytes.now number)) }
{
    let mut number = 0;
    for byte in bytes {
        let digit = digit_of(*byte)?;
        number = number * 16 + digit as u64;
    }
    Some(number)
}

/// Writes the number in as many digits as there is room for.
pub fn write_hex(out: &mut [u8], number: u64)
    requires few { length out.old ≤ 16 }
    requires fits { number < 16 ^ length out.old }
    ensures { SpellsNumber out.new number }
{
    for place in 0..out.len() {
        let from_right = out.len() - 1 - place;
        out[place] = byte_of(digit_of_number(number, from_right));
    }
}

/// The number in eight digits.
pub fn digits_of(number: u32) -> [u8; 8]
    ensures { result ≡ digits_of number }
{
    let mut digits = [b'0'; 8];
    write_hex(&mut digits, number as u64);
    digits
}

// The digit at a place, counted from the right.
fn digit_of_number(number: u64, place: usize) -> u8
    requires { place < 16 }
    ensures { result ≡ digit_at number place }
{
    ((number >> (4 * place)) % 16) as u8
}
