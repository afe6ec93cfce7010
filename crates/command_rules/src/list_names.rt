//! The names of the lists of users.
ghost use Rattle.std.specs.Prelude.{◌≡◌};
ghost use Rattle.command_rules.specs.Found.{allow_file, deny_file};

use host_calls::Name;

/// The name of the list of those who may use `at`.
pub fn allow_name() -> Name
    ensures { result ≡ allow_file }
{
    Name::of(b"at.allow").unwrap()
}

/// The name of the list of those who may not, where there is none of those who may.
pub fn deny_name() -> Name
    ensures { result ≡ deny_file }
{
    Name::of(b"at.deny").unwrap()
}
