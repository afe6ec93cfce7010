//! The name of a file that is being made.
ghost use Rattle.std.specs.Prelude.{◌≡◌};
ghost use Rattle.whole_file.specs.Temporary.{temporary_file};

use host_calls::Name;

/// The name under which the spool makes a file before it takes the place of another.
pub fn temporary_name() -> Name
    ensures { result ≡ temporary_file }
{
    Name::of(b".TMP").unwrap()
}
