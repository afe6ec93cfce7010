//! The environment of a caller.
ghost use Rattle.std.specs.Prelude.{◌≡◌, ◌++◌, [], ◌∷◌, OnOk, OnErr};

use host_calls::Text;
use std::alloc::{AllocError, Global};
use std::marker::Model;

/// The environment of a caller. A contract sees it as the list of names with their values.
#[derive(Drop)]
pub struct Variables {
    items: Vec<(Text, Text)>,
}

impl Model for Variables {
    ghost use Rattle.std.specs.Prelude.{List, ℕ};

    ghost Value = { List (List ℕ × List ℕ) };

    ghost view = { λ variables. variables.items.items };
}

impl Variables {
    /// An environment without variables.
    pub fn new(alloc: Global) -> Variables
        ensures { result ≡ [] }
    {
        Variables {
            items: Vec::new(alloc),
        }
    }

    /// Adds a variable after the others.
    pub fn push(&mut self, alloc: Global, name: &str, value: &str) -> Result<(), AllocError>
        ensures ok { OnOk result (self.new ≡ self.old ++ (name.now, value.now) ∷ []) }
        ensures err { OnErr result (self.new ≡ self.old) }
    {
        let name = Text::of(alloc, name)?;
        let value = Text::of(alloc, value)?;
        self.items.push((name, value))?;
        Ok(())
    }

    /// The names with their values, in order.
    pub(crate) fn as_slice(&self) -> &[(Text, Text)]
        ensures { result.now ≡ self.now }
    {
        self.items.as_slice()
    }
}
