//! The files whose bytes may be unsynced.
ghost use Rattle.std.specs.Prelude.{◌≡◌};
ghost use Rattle.unix_host.specs.Unsynced.{is_torn};
ghost use Rattle.unix_host.specs.inside.Torn.{HasTorn, HasWhole, HasMoved};

use host_calls::Name;

/// The files whose bytes a power cut may tear. One file is distinguished, so that a session that syncs each
/// file before it turns to the next leaves nothing.
#[derive(Clone, Copy)]
pub enum Torn {
    Nobody,
    One(Name),
    Each,
}

impl Torn {
    /// Whether the bytes of some file may be unsynced.
    pub fn is_some(&self) -> bool
        ensures { result ≡ is_torn self.now }
    {
        match self {
            Torn::Nobody => false,
            Torn::One(_) | Torn::Each => true,
        }
    }

    /// These files and one more.
    pub fn with(&self, name: &Name) -> Torn
        ensures { HasTorn name.now self.now result }
    {
        match self {
            Torn::Nobody => Torn::One(*name),
            Torn::One(other) if *other == *name => Torn::One(*other),
            Torn::One(_) => Torn::Each,
            Torn::Each => Torn::Each,
        }
    }

    /// These files but the one that was synced.
    pub fn without(&self, name: &Name) -> Torn
        ensures { HasWhole name.now self.now result }
    {
        match self {
            Torn::One(other) if *other != *name => Torn::One(*other),
            Torn::Nobody | Torn::One(_) => Torn::Nobody,
            Torn::Each => Torn::Each,
        }
    }

    /// These files once one of them has another name.
    pub fn moved(&self, from: &Name) -> Torn
        ensures { HasMoved from.now self.now result }
    {
        match self {
            Torn::Nobody => Torn::Nobody,
            Torn::One(other) if *other != *from => Torn::One(*other),
            Torn::One(_) | Torn::Each => Torn::Each,
        }
    }
}
