//! A line without the blanks at its ends.
ghost use Rattle.std.specs.Prelude.{◌≡◌};
ghost use Rattle.text_reader.specs.Blanks.{after_blanks, before_blanks};

/// The bytes from the first on that is no blank.
pub fn after_blanks(line: &[u8]) -> &[u8]
    ensures { result.now ≡ after_blanks line.now }
{
    let mut rest = line;
    while let [b' ' | b'\t', after @ ..] = rest {
        rest = after;
    }
    rest
}

/// The bytes without the blanks at their end.
pub fn before_blanks(line: &[u8]) -> &[u8]
    ensures { result.now ≡ before_blanks line.now }
{
    let mut rest = line;
    while let [before @ .., b' ' | b'\t'] = rest {
        rest = before;
    }
    rest
}
