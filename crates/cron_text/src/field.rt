//! The patterns of an entry: an asterisk, or numbers and ranges of numbers between commas.
ghost use Rattle.std.specs.Prelude.{◌≡◌, ◌<◌, ◌≤◌, IfSome};
ghost use Rattle.text_reader.specs.ReadResult.{read_view};
ghost use Rattle.cron_text.specs.Field.{IsSpanIn};
ghost use Rattle.cron_text.specs.inside.Reader as Reader;

use text_reader::read_two_digits;

/// The numbers that a pattern holds: bit v is set where it holds v. `star` says that it is an
/// asterisk.
#[derive(Clone, Copy, Debug, PartialEq, Eq)]
pub struct Field {
    pub star: bool,
    pub bits: u64,
}

/// The numbers from low to high that the pattern holds.
#[tactic(auto, unfolding(crate::specs::inside::Reader::field_in))]
pub(crate) fn read_field(low: u8, high: u8, text: &[u8]) -> Option<Field>
    requires ordered { low ≤ high }
    requires small { high < 60 }
    ensures { result ≡ Reader.field_in low high text.now }
{
    if text == b"*".as_slice() {
        return Some(Field {
            star: true,
            bits: bits_between(low, high),
        });
    }
    let bits = read_elements(low, high, text)?;
    Some(Field { star: false, bits })
}

fn read_elements(low: u8, high: u8, text: &[u8]) -> Option<u64>
    requires { high < 60 }
    ensures { result ≡ Reader.elements_in low high 0 (Reader.elements_of text.now) }
{
    let mut bits = 0;
    for element in text.split(|byte| *byte == b',') {
        let (first, last) = read_element(low, high, element)?;
        bits |= bits_between(first, last);
    }
    Some(bits)
}

#[tactic(auto, unfolding(crate::specs::inside::Reader::element_in))]
fn read_element(low: u8, high: u8, text: &[u8]) -> Option<(u8, u8)>
    ensures value { result ≡ Reader.element_in low high text.now }
    ensures within { IfSome result (IsSpanIn low high) }
{
    let (first, last) = read_span(text)?;
    if low <= first && first <= last && last <= high {
        Some((first, last))
    } else {
        None
    }
}

// One number, or two with a hyphen between them.
#[tactic(auto, unfolding(crate::specs::inside::Reader::span_in, crate::specs::inside::Reader::range_from, crate::specs::inside::Reader::range_to))]
fn read_span(text: &[u8]) -> Option<(u8, u8)>
    ensures { result ≡ Reader.span_in text.now }
{
    let (first, rest) = read_number(text)?;
    match rest {
        [] => Some((first, first)),
        [b'-', rest @ ..] => {
            let (last, rest) = read_number(rest)?;
            rest.is_empty().then_some((first, last))
        }
        _ => None,
    }
}

// The number of one or two digits that the text begins with, and the rest.
#[tactic(auto, unfolding(crate::specs::inside::Reader::number_before))]
fn read_number(text: &[u8]) -> Option<(u8, &[u8])>
    ensures { read_view result ≡ Reader.number_before text.now }
{
    match read_two_digits(text) {
        Some(read) => Some(read),
        None => read_digit(text),
    }
}

// The number of the one digit that the text begins with, and the rest.
#[tactic(auto, unfolding(crate::specs::inside::Reader::digit_before))]
fn read_digit(text: &[u8]) -> Option<(u8, &[u8])>
    ensures { read_view result ≡ Reader.digit_before text.now }
{
    match text {
        [ones @ b'0'..=b'9', rest @ ..] => Some((*ones - b'0', rest)),
        _ => None,
    }
}

// The number whose bits from first to last are set, and no others.
#[tactic(auto, unfolding(crate::specs::inside::Reader::bits_between))]
fn bits_between(first: u8, last: u8) -> u64
    requires ordered { first ≤ last }
    requires small { last < 60 }
    ensures { result ≡ Reader.bits_between (first, last) }
{
    (1 << (last + 1)) - (1 << first)
}
