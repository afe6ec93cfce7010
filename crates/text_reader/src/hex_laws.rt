//! What holds of all bytes and the numbers that they spell.
ghost use Rattle.text_reader.specs.HexLaws.{EightDigitsAreSpelled, NumbersAreSpelled};

/// The number that bytes are, as it computes, is the one that they spell, and of eight digits it has one spelling.
pub fn numbers_are_spelled()
    ensures numbers { NumbersAreSpelled }
    ensures eight { EightDigitsAreSpelled }
{}
