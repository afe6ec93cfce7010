//! Job numbers.
ghost use Rattle.std.specs.Prelude.{◌≡◌};
ghost use Rattle.spool_model.specs.Numbers.{number_digits};

/// The last job number that can be drawn. It has eight hexadecimal digits.
pub const LAST_NUMBER: u32 = 4_294_967_295;

/// How many hexadecimal digits a number has in a spool: in the new form, or in the old one.
pub fn number_digits(new_form: bool) -> usize
    ensures { result ≡ number_digits new_form }
{
    if new_form { 8 } else { 5 }
}
