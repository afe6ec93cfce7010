//! The names of the file of accounts.
ghost use Rattle.std.specs.Prelude.{◌≡◌};
ghost use Rattle.at_account.specs.Names.{account_file, account_temp};

use host_calls::Name;

/// The name of the file of accounts.
pub fn account_name() -> Name
    ensures { result ≡ account_file }
{
    Name::of(b".ACC").unwrap()
}

/// The name under which the file of accounts is made before it takes the place of the old one.
pub fn account_temporary_name() -> Name
    ensures { result ≡ account_temp }
{
    Name::of(b".ATMP").unwrap()
}
