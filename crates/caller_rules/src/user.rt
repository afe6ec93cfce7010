//! The user who calls.
ghost use Rattle.std.specs.Prelude.{◌≡◌};
ghost use Rattle.std.specs.List.{list_all};
ghost use Rattle.std.specs.Char.{is_ascii_digit};

use host_calls::Text;

/// The user who calls.
#[derive(Drop)]
pub struct CallingUser {
    /// The number by which the system knows them. None where the system does not report it.
    pub number: Option<u32>,
    pub name: Text,
    /// The home directory, where it exists and is the user's own.
    pub home: Option<Text>,
}

impl CallingUser {
    ghost use Rattle.caller_rules.specs.Users.{is_name_of_digits, is_root_user};

    /// Whether it is root.
    pub fn is_root(&self) -> bool
        ensures { result ≡ is_root_user self.now }
    {
        match self.number {
            Some(number) => number == 0,
            None => self.name.as_str() == "root",
        }
    }

    /// Whether the name has digits alone. The system's tools may take such a name for a user number, so that a daemon could be
    /// started for another user.
    pub fn has_name_of_digits(&self) -> bool
        ensures { result ≡ is_name_of_digits self.now.name }
    {
        let name = self.name.as_str();
        !name.is_empty() && are_ascii_digits(name.as_bytes())
    }
}

fn are_ascii_digits(bytes: &[u8]) -> bool
    ensures { result ≡ list_all is_ascii_digit bytes.now }
{
    bytes.iter().all(|byte| byte.is_ascii_digit())
}
