//! The tokens of a text, one after another.
ghost use Rattle.std.specs.Prelude.{◌≡◌, ◌<◌, ◌≤◌, length, slice_index, false, IfOk, IfErr, IfSome, IfNone};
ghost use Rattle.timespec_lexer.specs.Tokens.{is_separator, mark_of, AreSeparators, BeginsNoToken, IsOnlyReading, IsOnlyRefusal, RefusedAt, HasToken, HasMark, Tokenizes};

use crate::found::Found;
use crate::number::number_at;
use crate::word::keyword_at;
use crate::{LexFault, Placed, Token};
use arrayvec::ArrayVec;

/// The most tokens of a text.
pub const MAX_TOKENS: usize = 16;

/// The tokens of a text, or the first place at which it has none.
pub fn tokens(text: &[u8]) -> Result<ArrayVec<Placed, MAX_TOKENS>, LexFault>
    ensures tokens { IfOk result (λ placed. Tokenizes text.now placed.items) }
    ensures only_these { IfOk result (λ placed. IsOnlyReading text.now placed.items) }
    ensures refused { IfErr result (λ fault. RefusedAt text.now fault.place) }
    ensures only_there { IfErr result (λ fault. IsOnlyRefusal text.now fault.place) }
{
    let mut placed = ArrayVec::new();
    let mut end = 0;
    loop {
        let begin = skip_separators(text, end);
        if begin == text.len() {
            return Ok(placed);
        }
        let place = begin as u64;
        let Some(found) = token_at(text, begin) else {
            return Err(LexFault { place });
        };
        if placed.is_full() {
            return Err(LexFault { place });
        }
        let token = found.token;
        placed.push(Placed { token, place });
        end = found.end;
    }
}

// The first place from this one on where no separator is, or the end.
fn skip_separators(text: &[u8], from: usize) -> usize
    requires { from ≤ length text.now }
    ensures within { result ≤ length text.now }
    ensures separators { AreSeparators text.now from result }
    ensures here { result < length text.now → is_separator (slice_index text.now result) ≡ false }
{
    let mut place = from;
    while place < text.len() && is_separator(text[place]) {
        place += 1;
    }
    place
}

// The token that begins at a place.
fn token_at(text: &[u8], place: usize) -> Option<Found>
    requires { place < length text.now }
    ensures token { IfSome result (λ found. HasToken text.now place found.end found.token) }
    ensures forward { IfSome result (λ found. place < found.end) }
    ensures within { IfSome result (λ found. found.end ≤ length text.now) }
    ensures none { IfNone result (BeginsNoToken text.now place) }
{
    let byte = text[place];
    if byte.is_ascii_digit() {
        number_at(text, place)
    } else if byte.is_ascii_alphabetic() {
        keyword_at(text, place)
    } else {
        mark_at(text, place)
    }
}

// The mark at a place.
fn mark_at(text: &[u8], place: usize) -> Option<Found>
    requires { place < length text.now }
    ensures mark { IfSome result (λ found. HasMark text.now place found.end found.token) }
    ensures none { IfNone result (mark_of (slice_index text.now place) ≡ None) }
{
    let token = mark_of(text[place])?;
    Some(Found {
        token,
        end: place + 1,
    })
}

// The token of a mark.
fn mark_of(byte: u8) -> Option<Token>
    ensures { result ≡ mark_of byte }
{
    match byte {
        b':' => Some(Token::Colon),
        b',' => Some(Token::Comma),
        b'+' => Some(Token::Plus),
        b'/' => Some(Token::Slash),
        b'.' => Some(Token::Dot),
        b'-' => Some(Token::Dash),
        _ => None,
    }
}

fn is_separator(byte: u8) -> bool
    ensures { result ≡ is_separator byte }
{
    byte == b' ' || byte == b'\t' || byte == b'\n'
}
