//! A place at which a file is damaged.
use crate::Name;

/// The place of a file that breaks its format. Its byte is `None` at the end of the file.
#[derive(Clone, Copy)]
pub struct Damage {
    pub name: Name,
    pub offset: u64,
    pub byte: Option<u8>,
}

impl Damage {
    ghost use Rattle.std.specs.Prelude.{◌≡◌};
    ghost use Rattle.host_calls.specs.Damages.{damage_at};

    /// The damage of the named file, which has these bytes, at a place.
    pub fn at(name: Name, bytes: &[u8], place: usize) -> Damage
        ensures { result ≡ damage_at name bytes.now place }
    {
        Damage {
            name,
            offset: place as u64,
            byte: bytes.get(place).copied(),
        }
    }
}
