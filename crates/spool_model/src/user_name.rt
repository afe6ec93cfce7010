//! Names of users.
ghost use Rattle.std.specs.Prelude.{◌≡◌, ◌↔◌, ◌==◌, IsTrue, IsSome, IfSome, nat_eq, refl};
ghost use Rattle.std.specs.Ordering.{nat_cmp, as_partial_cmp};
ghost use Rattle.std.specs.Cmp.Lexicographic.{pointwise, slice_cmp};
ghost use Rattle.std.specs.Cmp.{partial_order_from_own_ties};
ghost use Rattle.std.specs.Cmp.Rules.{comparing};
ghost use Rattle.std.proofs.Common.{rules};
ghost use Rattle.spool_model.specs.Users.{IsUserName, is_user_byte, are_user_bytes};

use std::cmp::Ordering;
use std::marker::Model;

/// The greatest length of a user's name.
pub const MAX_USER_NAME: usize = 32;

/// The name of a user: 1 to 32 ASCII letters, digits, `.`, `_`, `-`, `$`, `+` and `@`, the first not
/// `-`. A contract sees it as its bytes.
#[derive(Clone, Copy)]
pub struct UserName {
    bytes: [u8; MAX_USER_NAME],
    count: usize,
}

impl Model for UserName {
    ghost use Rattle.std.specs.Prelude.{List, ℕ, take, length};
    ghost use Rattle.std.proofs.Common.{sym};
    ghost use Rattle.spool_model.specs.Users.{padded_user, IsPaddedUser};

    ghost Value = { List ℕ };

    ghost view = { λ name. take name.count name.bytes };

    ghost invariant = { λ name. IsPaddedUser name.bytes name.count };

    ghost inverse = { λ bytes. record { bytes = padded_user bytes; count = length bytes } };

    ghost inverse_ok = { λ name holds i. record { bytes = sym holds.zeros i; count = holds.counted i } };
}

impl UserName {
    /// The name with these bytes, if they are one.
    pub fn of(bytes: &[u8]) -> Option<UserName>
        ensures valid { IsSome result ↔ IsUserName bytes.now }
        ensures value { IfSome result (λ name. name ≡ bytes.now) }
    {
        if !is_user_name(bytes) {
            return None;
        }
        let mut padded = [0; MAX_USER_NAME];
        padded[..bytes.len()].copy_from_slice(bytes);
        Some(UserName {
            bytes: padded,
            count: bytes.len(),
        })
    }

    /// The 1 to 32 bytes of the name, without padding.
    pub fn as_bytes(&self) -> &[u8]
        ensures bytes { result.now ≡ self.now }
        ensures name { IsUserName result.now }
    {
        &self.bytes[..self.count]
    }
}

fn is_user_name(bytes: &[u8]) -> bool
    ensures { IsTrue result ↔ IsUserName bytes.now }
{
    let fits = !bytes.is_empty() && bytes.len() <= MAX_USER_NAME;
    fits && bytes[0] != b'-' && has_user_bytes(bytes)
}

fn has_user_bytes(bytes: &[u8]) -> bool
    ensures { result ≡ are_user_bytes bytes.now }
{
    bytes.iter().all(|byte| is_user_byte(*byte))
}

fn is_user_byte(byte: u8) -> bool
    ensures { result ≡ is_user_byte byte }
{
    let is_mark = byte == b'.' || byte == b'_' || byte == b'-' || byte == b'$';
    byte.is_ascii_alphanumeric() || is_mark || byte == b'+' || byte == b'@'
}

impl PartialEq for UserName {
    ghost eq = { pointwise nat_eq };

    ghost laws = { Prim.search (comparing, rules) };

    fn eq(&self, other: &UserName) -> bool {
        self.as_bytes() == other.as_bytes()
    }
}

impl Eq for UserName {
    ghost laws = { Prim.search (comparing, rules) };
}

impl PartialOrd for UserName {
    ghost partial_cmp = { as_partial_cmp (slice_cmp nat_cmp) };

    ghost laws = { partial_order_from_own_ties (Prim.search (comparing, rules)) (Prim.search (comparing, rules)) };

    fn partial_cmp(&self, other: &UserName) -> Option<Ordering> {
        Some(self.cmp(other))
    }
}

impl Ord for UserName {
    ghost cmp = { slice_cmp nat_cmp };

    ghost total = { Prim.search (comparing, rules) };

    ghost matches_partial_cmp = { λ x y. refl };

    ghost matches_eq = { Prim.search (comparing, rules) };

    fn cmp(&self, other: &UserName) -> Ordering {
        self.as_bytes().cmp(other.as_bytes())
    }
}
