//! Names of files in the spool directory.
ghost use Rattle.std.specs.Prelude.{◌≡◌, ◌↔◌, ◌==◌, IsTrue, IsSome, IfSome, nat_eq, refl};
ghost use Rattle.std.specs.Ordering.{nat_cmp, as_partial_cmp};
ghost use Rattle.std.specs.Cmp.Lexicographic.{pointwise, slice_cmp};
ghost use Rattle.std.specs.Cmp.{partial_order_from_own_ties};
ghost use Rattle.std.specs.Cmp.Rules.{comparing};
ghost use Rattle.std.proofs.Common.{rules};
ghost use Rattle.host_calls.specs.Names.{IsName, is_name_byte, are_name_bytes};

use std::cmp::Ordering;
use std::marker::Model;

/// The greatest length of a name.
pub const MAX_NAME: usize = 64;

/// The name of a plain file in the spool directory: 1 to 64 ASCII letters, digits, `.`, `_` and `-`,
/// and neither `.` nor `..`. A contract sees it as its bytes.
#[derive(Clone, Copy)]
pub struct Name {
    bytes: [u8; MAX_NAME],
    count: usize,
}

impl Model for Name {
    ghost use Rattle.std.specs.Prelude.{List, ℕ, take, length};
    ghost use Rattle.std.proofs.Common.{sym};
    ghost use Rattle.host_calls.specs.Names.{IsName, padded_name, IsPaddedName};

    ghost Value = { List ℕ };

    ghost view = { λ name. take name.count name.bytes };

    ghost invariant = { λ name. IsPaddedName name.bytes name.count };

    ghost inverse = { λ bytes. record { bytes = padded_name bytes; count = length bytes } };

    ghost inverse_ok = { λ name holds i. record { bytes = sym holds.zeros i; count = holds.counted i } };
}

impl Name {
    /// The name with these bytes, if they are one.
    pub fn of(bytes: &[u8]) -> Option<Name>
        ensures valid { IsSome result ↔ IsName bytes.now }
        ensures value { IfSome result (λ name. name ≡ bytes.now) }
    {
        if !is_name(bytes) {
            return None;
        }
        let mut padded = [0; MAX_NAME];
        padded[..bytes.len()].copy_from_slice(bytes);
        Some(Name {
            bytes: padded,
            count: bytes.len(),
        })
    }

    /// The 1 to 64 bytes of the name, without padding.
    pub fn as_bytes(&self) -> &[u8]
        ensures bytes { result.now ≡ self.now }
        ensures name { IsName result.now }
    {
        &self.bytes[..self.count]
    }
}

fn is_name(bytes: &[u8]) -> bool
    ensures { IsTrue result ↔ IsName bytes.now }
{
    let fits = !bytes.is_empty() && bytes.len() <= MAX_NAME;
    fits && bytes != b".".as_slice() && bytes != b"..".as_slice() && has_name_bytes(bytes)
}

fn has_name_bytes(bytes: &[u8]) -> bool
    ensures { result ≡ are_name_bytes bytes.now }
{
    bytes.iter().all(|byte| is_name_byte(*byte))
}

fn is_name_byte(byte: u8) -> bool
    ensures { result ≡ is_name_byte byte }
{
    byte.is_ascii_alphanumeric() || byte == b'.' || byte == b'_' || byte == b'-'
}

impl PartialEq for Name {
    ghost eq = { pointwise nat_eq };

    ghost laws = { Prim.search (comparing, rules) };

    fn eq(&self, other: &Name) -> bool {
        self.as_bytes() == other.as_bytes()
    }
}

impl Eq for Name {
    ghost laws = { Prim.search (comparing, rules) };
}

impl PartialOrd for Name {
    ghost partial_cmp = { as_partial_cmp (slice_cmp nat_cmp) };

    ghost laws = { partial_order_from_own_ties (Prim.search (comparing, rules)) (Prim.search (comparing, rules)) };

    fn partial_cmp(&self, other: &Name) -> Option<Ordering> {
        Some(self.cmp(other))
    }
}

impl Ord for Name {
    ghost cmp = { slice_cmp nat_cmp };

    ghost total = { Prim.search (comparing, rules) };

    ghost matches_partial_cmp = { λ x y. refl };

    ghost matches_eq = { Prim.search (comparing, rules) };

    fn cmp(&self, other: &Name) -> Ordering {
        self.as_bytes().cmp(other.as_bytes())
    }
}
