//! Numbers.
ghost use Rattle.std.specs.Prelude.{◌+◌, ◌<◌, ◌≤◌, ℕ, length, IfSome, IfNone};
ghost use Rattle.timespec_lexer.specs.Tokens.{IsDigitAt, HasNumber};

use crate::Token;
use crate::found::Found;

// The most digits of a number.
const MAX_DIGITS: usize = 9;

/// The number at a place where a digit is, unless it has too many digits.
pub fn number_at(text: &[u8], place: usize) -> Option<Found>
    requires digit { IsDigitAt text.now place }
    requires inside { place < length text.now }
    ensures number { IfSome result (λ found. HasNumber text.now place found.end found.token) }
    ensures within { IfSome result (λ found. found.end ≤ length text.now) }
    ensures long { IfNone result ((k : ℕ) → k ≤ MAX_DIGITS → IsDigitAt text.now (place + k)) }
{
    let mut value = 0;
    let mut end = place;
    while end < text.len() && text[end].is_ascii_digit() {
        if end - place == MAX_DIGITS {
            return None;
        }
        value = value * 10 + u32::from(text[end] - b'0');
        end += 1;
    }
    let digits = (end - place) as u8;
    let token = Token::Number { digits, value };
    Some(Found { token, end })
}
