//! Lives by their numbers.
ghost use Rattle.std.specs.Prelude.{◌≡◌, ◌==◌, ◌<◌, ◌≤◌, ◌++◌, ◌^◌, [], ◌∷◌, ℕ, IfOk, OnOk, length, if◌then◌else◌};
ghost use Rattle.std.specs.List.{filter_map};
ghost use Rattle.std.specs.List.Sorted.{IsStrictlySortedBy};
ghost use Rattle.std.specs.Map.{keys_of};
ghost use Rattle.std.specs.Option.{option_copied};
ghost use Rattle.std.specs.Ordering.{nat_cmp};
ghost use Rattle.start_journal.specs.Lifecycles.{decided_of, life_under};
ghost use Rattle.start_journal.specs.inside.LivesOf.{life_at, life_of};

use crate::Lifecycle;
use crate::lifecycles::decided_of;
use spool_model::Decided;
use std::alloc::{AllocError, Global};
use std::collections::BTreeMap;
use std::marker::Model;

/// Lives by their numbers: those from a first number on in a row, and those of numbers below it in a map.
#[derive(Drop)]
pub(crate) struct LifeMap {
    first: u32,
    row: Vec<Lifecycle>,
    below: BTreeMap<u32, Lifecycle>,
}

impl Model for LifeMap {
    ghost use Rattle.std.specs.Prelude.{ℕ, List};
    ghost use Rattle.start_journal.specs.declared.lifecycles.Lifecycle.{Lifecycle as Life};

    ghost Value = { List (ℕ × Life) };

    ghost use Rattle.start_journal.specs.inside.LifeMaps.{IsLifeMap, lives_of};

    ghost view = { lives_of };

    ghost invariant = { IsLifeMap };
}

impl LifeMap {
    // None yet, with a row from this number on.
    pub(crate) fn new(alloc: Global, first: u32) -> LifeMap
        ensures { result ≡ [] }
    {
        LifeMap {
            first,
            row: Vec::new(alloc),
            below: BTreeMap::new(alloc),
        }
    }

    // The life under the number.
    pub(crate) fn get(&self, number: u32) -> Option<&Lifecycle>
        ensures { option_copied result ≡ life_under self.now number }
    {
        if number < self.first {
            self.below.get(&number)
        } else {
            self.row.as_slice().get((number - self.first) as usize)
        }
    }

    // Puts the life under the number.
    pub(crate) fn put(&mut self, number: u32, life: Lifecycle) -> Result<(), AllocError>
        ensures { OnOk result ((other : ℕ)
            → life_of self.new other ≡ (if other == number then life else life_of self.old other)) }
    {
        if number < self.first {
            self.below.insert(number, life)?;
        } else {
            put_in_row(&mut self.row, (number - self.first) as usize, life)?;
        }
        Ok(())
    }

    // The numbers whose fate is remembered, in their order.
    pub(crate) fn decided(&self, alloc: Global) -> Result<Vec<Decided>, AllocError>
        ensures items { IfOk result (λ list. list.items ≡ filter_map decided_of self.now) }
        ensures ordered { IsStrictlySortedBy nat_cmp (keys_of self.now) }
    {
        let mut list = decided_in(alloc, &self.below)?;
        for (place, life) in self.row.as_slice().iter().enumerate() {
            push_decided(&mut list, self.first + place as u32, *life)?;
        }
        Ok(list)
    }
}

// Puts the life at the place of the row, which is filled up to it with lives of which nothing is known.
fn put_in_row(row: &mut Vec<Lifecycle>, place: usize, life: Lifecycle) -> Result<(), AllocError>
    requires small { place < 2 ^ 32 }
    ensures told { OnOk result ((other : ℕ)
        → life_at row.new.items other ≡ (if other == place then life else life_at row.old.items other)) }
    ensures few { (most : ℕ) → place < most → length row.old.items ≤ most → length row.new.items ≤ most }
{
    if row.as_slice().len() <= place {
        row.resize(place + 1, Lifecycle::UNMODELLED)?;
    }
    row[place] = life;
    Ok(())
}

fn decided_in(alloc: Global, lives: &BTreeMap<u32, Lifecycle>) -> Result<Vec<Decided>, AllocError>
    ensures items { IfOk result (λ list. list.items ≡ filter_map decided_of lives.now.entries) }
    ensures ordered { IsStrictlySortedBy nat_cmp (keys_of lives.now.entries) }
{
    let lives = lives.iter();
    lives
        .filter_map(|(number, life)| decided_of(*number, *life))
        .collect(alloc)
}

fn push_decided(list: &mut Vec<Decided>, number: u32, life: Lifecycle) -> Result<(), AllocError>
    ensures { OnOk result (list.new.items ≡ list.old.items ++ filter_map decided_of ((number, life) ∷ [])) }
{
    if let Some(decided) = decided_of(number, life) {
        list.push(decided)?;
    }
    Ok(())
}
