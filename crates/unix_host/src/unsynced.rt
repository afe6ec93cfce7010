//! How much of the directory may be unsynced.
ghost use Rattle.std.specs.Prelude.{◌≡◌, ◌↔◌, ◌≤◌, IsTrue};
ghost use Rattle.unix_host.specs.inside.LockByte.{known_by, meaning_of, amount_of};

/// What of the directory may be unsynced, the least first.
#[derive(Clone, Copy, Debug, PartialEq, Eq)]
pub enum Unsynced {
    Nothing,
    /// Changes of names alone.
    Names,
    /// Names, and the bytes of any file.
    Anything,
}

impl Unsynced {
    /// What the byte of a lock file says. All bytes but two say the worst, and so does none.
    pub fn known_by(byte: Option<u8>) -> Unsynced
        ensures { result ≡ known_by byte }
    {
        match byte {
            Some(b'c') => Unsynced::Nothing,
            Some(b'n') => Unsynced::Names,
            Some(_) | None => Unsynced::Anything,
        }
    }

    /// The byte that says so.
    pub fn byte(self) -> u8
        ensures { meaning_of result ≡ self }
    {
        match self {
            Unsynced::Nothing => b'c',
            Unsynced::Names => b'n',
            Unsynced::Anything => b'a',
        }
    }

    /// Whether this says at least as much as the other.
    pub fn covers(self, other: Unsynced) -> bool
        ensures { IsTrue result ↔ (amount_of other ≤ amount_of self) }
    {
        other as u8 <= self as u8
    }
}
