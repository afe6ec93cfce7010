//! Which name holds which body.
ghost use Rattle.std.specs.Prelude.{◌≡◌, ◌<◌, All, ◌++◌, [], ◌∷◌, ℕ, List, IfOk, OnOk, IsTrue, vec_len, vec_capacity};
ghost use Rattle.std.specs.BTreeMap.{IsEmpty, IsOrdered, get};
ghost use Rattle.host_calls.specs.Directory.{name_cmp};
ghost use Rattle.memory_host.specs.inside.Table.{HasPlaces, HaveAllPlaces, HoldsSameDurable, HoldsSameNow, KeepsPlaces, durable_in, changed_at, has_place, meant, now_in, now_names, pending_of, picked_holders, where_touched};

use crate::changes::{make_change, make_picked, settle_each, take_each_back};
use crate::held::{Held, now_of};
use crate::pending::Change;
use host_calls::Name;
use std::alloc::{AllocError, Global};
use std::collections::BTreeMap;

/// The names, durable and current, and the changes that are pending, the oldest first.
#[derive(Drop)]
pub struct NameTable {
    held: BTreeMap<Name, Held>,
    pending: Vec<Change>,
}

impl NameTable {
    /// A table without a name.
    pub fn new(alloc: Global) -> NameTable
        ensures held { IsEmpty result.held }
        ensures pending { result.pending.items ≡ [] }
    {
        NameTable {
            held: BTreeMap::new(alloc),
            pending: Vec::new(alloc),
        }
    }

    /// The number of the body that the name holds now.
    pub fn number(&self, name: &Name) -> Option<usize>
        ensures { result ≡ now_in self.now.held name.now }
    {
        now_of(&self.held, name)
    }

    /// The names that hold a body now, in byte order.
    pub fn names(&self, alloc: Global) -> Result<Vec<Name>, AllocError>
        ensures names { IfOk result (λ names. names.items ≡ now_names self.now.held.entries) }
        ensures ordered { IsOrdered name_cmp self.now.held }
        ensures found { All (λ entry. get name_cmp self.now.held entry.0 ≡ Some entry.1) self.now.held.entries }
    {
        self.held
            .iter()
            .filter(|(_, held)| held.now.is_some())
            .map(|(name, _)| *name)
            .collect(alloc)
    }

    /// Takes the room for this change.
    pub fn reserve(&mut self, target: &Name) -> Result<(), AllocError>
        ensures room { OnOk result (vec_len self.new.pending < vec_capacity self.new.pending) }
        ensures place { OnOk result (IsTrue (has_place self.new.held target.now)) }
        ensures places { (name : List ℕ)
            → IsTrue (has_place self.old.held name) → IsTrue (has_place self.new.held name) }
        ensures now { HoldsSameNow self.old.held self.new.held }
        ensures durable { HoldsSameDurable self.old.held self.new.held }
        ensures pending { self.new.pending.items ≡ self.old.pending.items }
    {
        self.pending.reserve(1)?;
        if !self.held.contains_key(target) {
            let none = Held {
                durable: None,
                now: None,
            };
            self.held.insert(*target, none)?;
        }
        Ok(())
    }

    /// Makes a change, for which there is room.
    pub fn change(&mut self, change: Change)
        requires room { vec_len self.old.pending < vec_capacity self.old.pending }
        requires places { HasPlaces self.old.held change }
        ensures now { (name : List ℕ)
            → now_in self.new.held name ≡ changed_at (meant change) (now_in self.old.held) name }
        ensures durable { HoldsSameDurable self.old.held self.new.held }
        ensures places { KeepsPlaces self.old.held self.new.held }
        ensures pending { self.new.pending.items ≡ self.old.pending.items ++ change ∷ [] }
    {
        make_change(&mut self.held, &change);
        self.pending.push_reserved(change);
    }

    /// Syncs all names.
    pub fn sync(&mut self)
        ensures now { HoldsSameNow self.old.held self.new.held }
        ensures durable { (name : List ℕ) → durable_in self.new.held name
            ≡ where_touched self.old.pending.items (now_in self.old.held) (durable_in self.old.held) name }
        ensures pending { self.new.pending.items ≡ [] }
    {
        settle_each(&mut self.held, &self.pending);
        self.pending.clear();
    }

    /// Takes the pending changes back, makes those that the pick names, and syncs all names.
    pub fn crash(&mut self, pick: u64)
        requires places { HaveAllPlaces self.old.held self.old.pending.items }
        ensures now { (name : List ℕ) → now_in self.new.held name
            ≡ picked_holders pick (pending_of self.old.pending.items)
            (where_touched self.old.pending.items (durable_in self.old.held) (now_in self.old.held)) name }
        ensures durable { (name : List ℕ) → durable_in self.new.held name
            ≡ where_touched self.old.pending.items (now_in self.new.held) (durable_in self.old.held) name }
        ensures pending { self.new.pending.items ≡ [] }
    {
        take_each_back(&mut self.held, &self.pending);
        make_picked(&mut self.held, &self.pending, pick);
        self.sync();
    }
}
