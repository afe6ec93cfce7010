//! Numbers of calls.
ghost use Rattle.std.specs.Prelude.{◌≡◌, ◌++◌, [], ◌∷◌, is_ok, if◌then◌else◌};
ghost use Rattle.memory_host.specs.Plan.{is_planned};

use std::alloc::{AllocError, Global};
use std::marker::Model;

/// A list of calls, by their numbers.
#[derive(Drop)]
pub struct CallList {
    inner: Vec<u64>,
}

impl Model for CallList {
    ghost use Rattle.std.specs.Prelude.{List, ℕ};

    ghost Value = { List ℕ };

    ghost view = { λ list. list.inner.items };
}

impl CallList {
    /// A list that names no call.
    pub fn new(alloc: Global) -> CallList
        ensures { result ≡ [] }
    {
        CallList {
            inner: Vec::new(alloc),
        }
    }

    /// Adds the number of a call, counted from 0.
    pub fn push(&mut self, alloc: Global, call: u64) -> Result<(), AllocError>
        ensures { self.new ≡ (if is_ok result then self.old ++ call ∷ [] else self.old) }
    {
        let _ = alloc;
        self.inner.push(call)?;
        Ok(())
    }

    /// Whether the list names the call.
    pub fn names(&self, call: u64) -> bool
        ensures { result ≡ is_planned call self.now }
    {
        self.inner.contains(&call)
    }
}
