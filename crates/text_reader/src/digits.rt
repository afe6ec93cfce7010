//! A number of two digits.
ghost use Rattle.std.specs.Prelude.{◌≡◌, ◌≤◌, IfSome};
ghost use Rattle.text_reader.specs.ReadResult.{read_view, two_digits_in};

/// The number of the two digits that the text begins with, and the rest.
#[tactic(auto, unfolding(crate::specs::ReadResult::two_digits_in))]
pub fn read_two_digits(text: &[u8]) -> Option<(u8, &[u8])>
    ensures value { read_view result ≡ two_digits_in text.now }
    ensures bound { IfSome result (λ read. read.0 ≤ 99) }
{
    match text {
        [tens @ b'0'..=b'9', ones @ b'0'..=b'9', rest @ ..] => {
            Some(((*tens - b'0') * 10 + (*ones - b'0'), rest))
        }
        _ => None,
    }
}
