//! Fields of a line.
ghost use Rattle.std.specs.Prelude.{◌≡◌, option_copied};
ghost use Rattle.caller_environment.specs.Fields.{field, part_after_last};

/// The field at this place of a line whose fields this byte separates, counted from 0.
pub(crate) fn field(line: &[u8], separator: u8, place: usize) -> Option<&[u8]>
    ensures { option_copied result ≡ field separator place line.now }
{
    line.split(|byte| *byte == separator).nth(place)
}

/// The bytes after the last of this kind, or all where there is none.
pub(crate) fn part_after_last(text: &[u8], mark: u8) -> &[u8]
    ensures { result.now ≡ part_after_last mark text.now }
{
    let count = text.iter().rev().take_while(|byte| **byte != mark).count();
    &text[text.len() - count..]
}
