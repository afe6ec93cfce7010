//! Reads parts of a text: a line without the blanks at its ends, a number of two digits, a number in a fixed count of
//! hexadecimal digits, which it writes too. Each function is exact, and eight digits spell a number in one way.
#![tactic(auto)]

mod digits;
mod hex_digit;
mod hex_laws;
mod hex_number;
mod line;

pub use digits::read_two_digits;
pub use hex_digit::{byte_of, digit_of, is_digit};
pub use hex_laws::numbers_are_spelled;
pub use hex_number::{digits_of, read_hex, write_hex};
pub use line::{after_blanks, before_blanks};
