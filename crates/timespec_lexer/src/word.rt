//! Keywords in a text.
ghost use Rattle.std.specs.Prelude.{◌≡◌, ◌≤◌, ◌<◌, ◌↔◌, length, IsTrue, IfSome, IfNone};
ghost use Rattle.timespec_lexer.specs.Keywords.{keywords};
ghost use Rattle.timespec_lexer.specs.inside.Search.{AddsRow, IsLongestMatch, words_of};
ghost use Rattle.timespec_lexer.specs.Tokens.{HasWord};

use crate::Token;
use crate::found::Found;
use crate::keywords::KEYWORDS;

/// The longest keyword at a place.
pub fn keyword_at(text: &[u8], place: usize) -> Option<Found>
    requires { place ≤ length text.now }
    ensures longest { IsLongestMatch text.now place keywords result }
    ensures forward { IfSome result (λ found. place < found.end) }
    ensures within { IfSome result (λ found. found.end ≤ length text.now) }
{
    longest_word(text, place, &KEYWORDS)
}

// The longest word of a table at a place.
fn longest_word(text: &[u8], place: usize, table: &[(&str, Token)]) -> Option<Found>
    requires { place ≤ length text.now }
    ensures { IsLongestMatch text.now place (words_of table.now) result }
{
    let mut longest = None;
    for row in table {
        longest = with_row(text, place, longest, row);
    }
    longest
}

// The longest word at a place of the rows before and of this one.
fn with_row(text: &[u8], place: usize, longest: Option<Found>, row: &(&str, Token)) -> Option<Found>
    requires { place ≤ length text.now }
    ensures { AddsRow text.now place longest (row.now.0.now, row.now.1) result }
{
    let (word, token) = *row;
    if !has_word(text, place, word.as_bytes()) {
        return longest;
    }
    let end = place + word.len();
    Some(longer_of(longest, Found { token, end }))
}

// The one that reaches farther.
fn longer_of(longest: Option<Found>, found: Found) -> Found
    ensures first { IfNone longest (result ≡ found) }
    ensures longer { IfSome longest (λ old. old.end < found.end → result ≡ found) }
    ensures stays { IfSome longest (λ old. found.end ≤ old.end → result ≡ old) }
{
    match longest {
        Some(longest) if longest.end >= found.end => longest,
        _ => found,
    }
}

// Whether the word, in lower case, is at the place.
fn has_word(text: &[u8], place: usize, word: &[u8]) -> bool
    requires { place ≤ length text.now }
    ensures { IsTrue result ↔ HasWord text.now place word.now }
{
    if text.len() - place < word.len() {
        return false;
    }
    for (offset, letter) in word.iter().enumerate() {
        if text[place + offset].to_ascii_lowercase() != *letter {
            return false;
        }
    }
    true
}
