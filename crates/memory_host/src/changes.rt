//! Changes of names: made, settled and removed.
ghost use Rattle.std.specs.Prelude.{◌≡◌, ℕ, List, IsTrue, if◌then◌else◌};
ghost use Rattle.memory_host.specs.Crash.{is_picked};
ghost use Rattle.memory_host.specs.inside.Table.{HasPlaces, HaveAllPlaces, HoldsSameDurable, HoldsSameNow, KeepsPlaces, durable_in, changed_at, has_place, meant, moved_at, now_in, pending_of, picked_holders, touches, where_touched};

use crate::held::{Held, now_of, set_now, settle_name, take_name_back};
use crate::pending::Change;
use host_calls::Name;
use std::collections::BTreeMap;

/// Makes a change, for whose names there is room.
pub fn make_change(held: &mut BTreeMap<Name, Held>, change: &Change)
    requires places { HasPlaces held.old change.now }
    ensures now { (name : List ℕ) → now_in held.new name ≡ changed_at (meant change.now) (now_in held.old) name }
    ensures durable { HoldsSameDurable held.old held.new }
    ensures places { KeepsPlaces held.old held.new }
{
    match change {
        Change::Made(name, number) => set_now(held, name, Some(*number)),
        Change::Renamed(from, to) => move_body(held, from, to),
        Change::Removed(name) => set_now(held, name, None),
    }
}

// Moves the body of the one name to the other, if there is one.
fn move_body(held: &mut BTreeMap<Name, Held>, from: &Name, to: &Name)
    requires from { IsTrue (has_place held.old from.now) }
    requires to { IsTrue (has_place held.old to.now) }
    ensures now { (name : List ℕ) → now_in held.new name
        ≡ moved_at (now_in held.old from.now) from.now to.now (now_in held.old) name }
    ensures durable { HoldsSameDurable held.old held.new }
    ensures places { KeepsPlaces held.old held.new }
{
    if let Some(number) = now_of(held, from) {
        set_now(held, from, None);
        set_now(held, to, Some(number));
    }
}

/// Makes the changes that the pick names, by their numbers.
pub fn make_picked(held: &mut BTreeMap<Name, Held>, changes: &[Change], pick: u64)
    requires places { HaveAllPlaces held.old changes.now }
    ensures now { (name : List ℕ) → now_in held.new name
        ≡ picked_holders pick (pending_of changes.now) (now_in held.old) name }
    ensures durable { HoldsSameDurable held.old held.new }
{
    for number in 0..changes.len() {
        make_if_picked(held, &changes[number], pick, number);
    }
}

// Makes the change of this number, if the pick names it.
fn make_if_picked(held: &mut BTreeMap<Name, Held>, change: &Change, pick: u64, number: usize)
    requires places { HasPlaces held.old change.now }
    ensures now { (name : List ℕ) → now_in held.new name
        ≡ (if is_picked pick number then changed_at (meant change.now) (now_in held.old) name
        else now_in held.old name) }
    ensures durable { HoldsSameDurable held.old held.new }
    ensures places { KeepsPlaces held.old held.new }
{
    if names_change(pick, number) {
        make_change(held, change);
    }
}

// Whether the pick names the change of this number.
fn names_change(pick: u64, number: usize) -> bool
    ensures { result ≡ is_picked pick number }
{
    (pick >> (number % 64)) & 1 == 1
}

/// Makes the names of these changes durable.
pub fn settle_each(held: &mut BTreeMap<Name, Held>, changes: &[Change])
    ensures now { HoldsSameNow held.old held.new }
    ensures durable { (name : List ℕ) → durable_in held.new name
        ≡ where_touched changes.now (now_in held.old) (durable_in held.old) name }
{
    for change in changes {
        settle_change(held, change);
    }
}

// Syncs the names of this change.
fn settle_change(held: &mut BTreeMap<Name, Held>, change: &Change)
    ensures now { HoldsSameNow held.old held.new }
    ensures durable { (name : List ℕ) → durable_in held.new name
        ≡ (if touches change.now name then now_in held.old name else durable_in held.old name) }
{
    match change {
        Change::Made(name, _) => settle_name(held, name),
        Change::Renamed(from, to) => {
            settle_name(held, from);
            settle_name(held, to);
        }
        Change::Removed(name) => settle_name(held, name),
    }
}

/// Takes these changes back.
pub fn take_each_back(held: &mut BTreeMap<Name, Held>, changes: &[Change])
    ensures now { (name : List ℕ) → now_in held.new name
        ≡ where_touched changes.now (durable_in held.old) (now_in held.old) name }
    ensures durable { HoldsSameDurable held.old held.new }
    ensures places { KeepsPlaces held.old held.new }
{
    for change in changes {
        undo_change(held, change);
    }
}

// Takes this change back.
fn undo_change(held: &mut BTreeMap<Name, Held>, change: &Change)
    ensures now { (name : List ℕ) → now_in held.new name
        ≡ (if touches change.now name then durable_in held.old name else now_in held.old name) }
    ensures durable { HoldsSameDurable held.old held.new }
    ensures places { KeepsPlaces held.old held.new }
{
    match change {
        Change::Made(name, _) => take_name_back(held, name),
        Change::Renamed(from, to) => {
            take_name_back(held, from);
            take_name_back(held, to);
        }
        Change::Removed(name) => take_name_back(held, name),
    }
}
