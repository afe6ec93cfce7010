//! The number of a record.
ghost use Rattle.std.specs.Prelude.{◌≡◌, ◌<◌, ◌^◌, ℕ, IfSome, IfNone, length};
ghost use Rattle.text_reader.specs.HexDigits.{digits_of};

/// The number that eight digits spell.
pub fn number_in(digits: &[u8]) -> Option<u32>
    requires { length digits.now ≡ 8 }
    ensures some { IfSome result (λ number. digits.now ≡ digits_of number) }
    ensures fits { IfSome result (λ number. number < 16 ^ 8) }
    ensures none { IfNone result ((number : ℕ) → number < 16 ^ 8 → ¬ (digits.now ≡ digits_of number)) }
{
    let number = text_reader::read_hex(digits)?;
    Some(number as u32)
}
