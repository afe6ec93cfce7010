//! What holds of every content of the sequence file.
ghost use Rattle.sequence_file.specs.Laws.{LastNumbersAreDamaged, LastNumbersAreGiven};

/// The last number and the damage, as they compute, are those of the format.
pub fn last_numbers_are_read()
    ensures given { LastNumbersAreGiven }
    ensures damaged { LastNumbersAreDamaged }
{}
