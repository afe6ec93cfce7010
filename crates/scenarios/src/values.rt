//! What single words say: numbers, names and texts.
ghost use Rattle.std.specs.Prelude.{◌<◌, IfOk};

use crate::Why;
use host_calls::Name;
use std::str::{self, FromStr};

/// The one word that there is to be.
pub fn one(words: &[Vec<u8>]) -> Result<&[u8], Why> {
    match words {
        [word] => Ok(word.as_slice()),
        _ => Err(Why::Count),
    }
}

/// The two words that there are to be.
pub fn two(words: &[Vec<u8>]) -> Result<(&[u8], &[u8]), Why> {
    match words {
        [first, second] => Ok((first.as_slice(), second.as_slice())),
        _ => Err(Why::Count),
    }
}

/// What a word means, by a table of words.
pub fn lookup<T: Copy>(table: &[(&str, T)], word: &[u8]) -> Option<T> {
    let found = table.iter().find(|entry| entry.0.as_bytes() == word)?;
    Some(found.1)
}

/// That there is no word.
pub fn none(words: &[Vec<u8>]) -> Result<(), Why> {
    if words.is_empty() {
        Ok(())
    } else {
        Err(Why::Count)
    }
}

/// A word as text.
pub fn text_word(word: &[u8]) -> Result<&str, Why> {
    str::from_utf8(word).map_err(|_| Why::Text)
}

/// A word as the name of a file.
pub fn name(word: &[u8]) -> Result<Name, Why> {
    Name::of(word).ok_or(Why::Name)
}

/// A word as a number in decimal digits, without a leading zero.
pub fn number_word<T: FromStr>(word: &[u8]) -> Result<T, Why>
where
    T::Err: Drop,
{
    if word.len() > 1 && word[0] == b'0' || !word.iter().all(u8::is_ascii_digit) {
        return Err(Why::Number);
    }
    text_word(word)?.parse().map_err(|_| Why::Number)
}

/// A word as a second, which a minus may come before.
pub fn second_word(word: &[u8]) -> Result<i64, Why> {
    match word.strip_prefix(b"-") {
        Some(digits) => Ok(-i64::from(number_word::<u32>(digits)?)),
        None => number_word(word),
    }
}

/// A word as a load in hundredths, `-` for none.
pub fn load(word: &[u8]) -> Result<Option<u32>, Why> {
    if word == b"-".as_slice() {
        return Ok(None);
    }
    Ok(Some(number_word(word)?))
}

/// A word as a umask in octal digits.
pub fn umask(word: &[u8]) -> Result<u16, Why>
    ensures { IfOk result (λ mask. mask < 512) }
{
    let mask = u16::from_str_radix(text_word(word)?, 8).map_err(|_| Why::Number)?;
    if mask > 0o777 {
        return Err(Why::Number);
    }
    Ok(mask)
}
