//! Job numbers, each once.
ghost use Rattle.std.specs.Prelude.{◌≡◌, [], OnOk, OnErr, IsTrue};
ghost use Rattle.at_words.specs.Numbers.{are_distinct, with_number};

use std::alloc::{AllocError, Global};
use std::marker::Model;

/// Job numbers, each once, in the order in which they first came. A contract sees them as a list.
#[derive(Drop)]
pub struct Numbers {
    inner: Vec<u32>,
}

impl Model for Numbers {
    ghost use Rattle.std.specs.Prelude.{List, ℕ, IsTrue};
    ghost use Rattle.at_words.specs.Numbers.{are_distinct};

    ghost Value = { List ℕ };

    ghost view = { λ numbers. numbers.inner.items };

    ghost invariant = { λ numbers. IsTrue (are_distinct numbers.inner.items) };
}

impl Numbers {
    /// No numbers.
    pub fn new(alloc: Global) -> Numbers
        ensures { result ≡ [] }
    {
        Numbers {
            inner: Vec::new(alloc),
        }
    }

    /// The numbers of a list in which each occurs once. Takes no memory.
    pub fn of_distinct(numbers: Vec<u32>) -> Numbers
        requires { IsTrue (are_distinct numbers.items) }
        ensures { result ≡ numbers.items }
    {
        Numbers { inner: numbers }
    }

    /// Appends a number that is not there yet.
    pub fn push(&mut self, _alloc: Global, number: u32) -> Result<(), AllocError>
        ensures ok { OnOk result (self.new ≡ with_number self.old number) }
        ensures err { OnErr result (self.new ≡ self.old) }
    {
        if !self.inner.contains(&number) {
            self.inner.push(number)?;
        }
        Ok(())
    }

    /// The numbers, in the order in which they first came.
    pub fn as_slice(&self) -> &[u32]
        ensures numbers { result.now ≡ self.now }
        ensures distinct { IsTrue (are_distinct result.now) }
    {
        &self.inner
    }
}
