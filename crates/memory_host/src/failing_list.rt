//! The calls that fail.
ghost use Rattle.std.specs.Prelude.{◌≡◌, ◌++◌, [], ◌∷◌, is_ok, if◌then◌else◌};
ghost use Rattle.memory_host.specs.Plan.{part_of};

use std::alloc::{AllocError, Global};
use std::marker::Model;

/// How much of its work a failing call does.
#[derive(Clone, Copy, Debug, PartialEq, Eq)]
pub enum Part {
    Nothing,
    All,
}

/// A call that fails, by its number, and how much of its work it does.
#[derive(Clone, Copy)]
pub struct Failing {
    pub call: u64,
    pub part: Part,
}

/// A list of failing calls.
#[derive(Drop)]
pub struct FailingList {
    inner: Vec<Failing>,
}

impl Model for FailingList {
    ghost use Rattle.std.specs.Prelude.{List};
    ghost use Rattle.memory_host.specs.declared.failing_list.Failing.{Failing};

    ghost Value = { List Failing };

    ghost view = { λ list. list.inner.items };
}

impl FailingList {
    /// A list that names no call.
    pub fn new(alloc: Global) -> FailingList
        ensures { result ≡ [] }
    {
        FailingList {
            inner: Vec::new(alloc),
        }
    }

    /// Adds a failing call. Where several entries name one call, the first counts.
    pub fn push(&mut self, alloc: Global, failing: Failing) -> Result<(), AllocError>
        ensures { self.new ≡ (if is_ok result then self.old ++ failing ∷ [] else self.old) }
    {
        let _ = alloc;
        self.inner.push(failing)?;
        Ok(())
    }

    /// The part that the first entry of this call names.
    pub fn part(&self, call: u64) -> Option<Part>
        ensures { result ≡ part_of self.now call }
    {
        first_part(&self.inner, call)
    }
}

fn first_part(list: &[Failing], call: u64) -> Option<Part>
    ensures { result ≡ part_of list.now call }
{
    for failing in list {
        if failing.call == call {
            return Some(failing.part);
        }
    }
    None
}
