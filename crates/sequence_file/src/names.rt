//! The name of the sequence file.
ghost use Rattle.std.specs.Prelude.{◌≡◌};
ghost use Rattle.sequence_file.specs.Sequence.{sequence_file};

use host_calls::Name;

/// The name of the sequence file.
pub fn sequence_name() -> Name
    ensures { result ≡ sequence_file }
{
    Name::of(b".SEQ").unwrap()
}
