//! The bytes of the sequence file.
ghost use Rattle.std.specs.Prelude.{◌≡◌, ℕ, true, IfOk, IfErr, IfSome, IfNone};
ghost use Rattle.sequence_file.specs.Sequence.{SpellsIn, SpellsSequence, IsFaultAt, sequence_file};
ghost use Rattle.sequence_file.specs.Places.{IsFittingPrefix, fits_at};

use crate::names::sequence_name;
use host_calls::Damage;
use spool_model::number_digits;
use text_reader::is_digit;

/// The file of a number, in the new form.
pub fn sequence_file_text(number: u32) -> [u8; 9]
    ensures { SpellsIn true result number }
{
    let mut text = *b"00000000\n";
    text_reader::write_hex(&mut text[..number_digits(true)], number as u64);
    text
}

/// The number that the file gives, or the place where it breaks its form.
pub fn read_sequence(bytes: &[u8]) -> Result<u32, Damage>
    ensures number { IfOk result (SpellsSequence bytes.now) }
    ensures name { IfErr result (λ damage. damage.name ≡ sequence_file) }
    ensures damaged { IfErr result (λ damage. IsFaultAt bytes.now damage.offset damage.byte) }
{
    match number_in_file(bytes, true).or(number_in_file(bytes, false)) {
        Some(number) => Ok(number),
        None => Err(damage_of(bytes)),
    }
}

// The number of the file, if it is of this form.
fn number_in_file(bytes: &[u8], new_form: bool) -> Option<u32>
    ensures number { IfSome result (SpellsIn new_form bytes.now) }
    ensures none { IfNone result ((number : ℕ) → ¬ (SpellsIn new_form bytes.now number)) }
{
    let digits = number_digits(new_form);
    if bytes.len() != 1 + digits || bytes[digits] != b'\n' {
        return None;
    }
    let number = text_reader::read_hex(&bytes[..digits])?;
    Some(number as u32)
}

fn damage_of(bytes: &[u8]) -> Damage
    requires { (number : ℕ) → ¬ (SpellsSequence bytes.now number) }
    ensures name { result.name ≡ sequence_file }
    ensures fault { IsFaultAt bytes.now result.offset result.byte }
{
    let offset = fitting(bytes, true).max(fitting(bytes, false));
    Damage::at(sequence_name(), bytes, offset)
}

// How many of the first bytes may be in their places of this form.
fn fitting(bytes: &[u8], new_form: bool) -> usize
    ensures { IsFittingPrefix new_form bytes.now result }
{
    for (place, byte) in bytes.iter().enumerate() {
        if !fits(new_form, place, *byte) {
            return place;
        }
    }
    bytes.len()
}

fn fits(new_form: bool, place: usize, byte: u8) -> bool
    ensures { result ≡ fits_at new_form place byte }
{
    let digits = number_digits(new_form);
    if place < digits {
        is_digit(byte)
    } else {
        place == digits && byte == b'\n'
    }
}
