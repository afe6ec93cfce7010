//! What is kept of each name.
ghost use Rattle.std.specs.Prelude.{◌≡◌, ℕ, List, IsSome, IsTrue, if◌then◌else◌};
ghost use Rattle.std.specs.Ordering.{eq_by_cmp};
ghost use Rattle.std.specs.BTreeMap.{get};
ghost use Rattle.host_calls.specs.Directory.{name_cmp};
ghost use Rattle.memory_host.specs.inside.Table.{HoldsSameDurable, HoldsSameNow, IsEntrySet, KeepsPlaces, durable_in, has_place, now_in, put_at};

use host_calls::Name;
use std::collections::BTreeMap;

/// The body that a name certainly holds, and the one that it holds now.
#[derive(Clone, Copy)]
pub struct Held {
    pub durable: Option<usize>,
    pub now: Option<usize>,
}

/// The number of the body that the name holds now.
pub fn now_of(held: &BTreeMap<Name, Held>, name: &Name) -> Option<usize>
    ensures { result ≡ now_in held.now name.now }
{
    match held_entry(held, name) {
        Some(kept) => kept.now,
        None => None,
    }
}

// What is kept of a name.
fn held_entry(held: &BTreeMap<Name, Held>, name: &Name) -> Option<Held>
    ensures { result ≡ get name_cmp held.now name.now }
{
    held.get(name).copied()
}

// Sets what is kept of a name that is kept.
fn set_entry(held: &mut BTreeMap<Name, Held>, name: &Name, kept: Held)
    requires { IsSome (get name_cmp held.old name.now) }
    ensures { IsEntrySet name.now (Some kept) held.old held.new }
{
    if let Some(place) = held.get_mut(name) {
        *place = kept;
    }
}

// Keeps nothing of a name.
fn remove_entry(held: &mut BTreeMap<Name, Held>, name: &Name)
    ensures { IsEntrySet name.now None held.old held.new }
{
    let _ = held.remove(name);
}

/// Gives the name another body, or none.
pub fn set_now(held: &mut BTreeMap<Name, Held>, name: &Name, now: Option<usize>)
    requires place { IsTrue (has_place held.old name.now) }
    ensures now { (other : List ℕ) → now_in held.new other ≡ put_at name.now now (now_in held.old) other }
    ensures durable { HoldsSameDurable held.old held.new }
    ensures places { KeepsPlaces held.old held.new }
{
    if let Some(kept) = held_entry(held, name) {
        set_entry(
            held,
            name,
            Held {
                durable: kept.durable,
                now,
            },
        );
    }
}

/// Makes durable what the name holds now. A name that holds nothing is no longer kept.
pub fn settle_name(held: &mut BTreeMap<Name, Held>, name: &Name)
    ensures now { HoldsSameNow held.old held.new }
    ensures durable { (other : List ℕ) → durable_in held.new other
        ≡ (if eq_by_cmp name_cmp name.now other then now_in held.old other else durable_in held.old other) }
{
    if let Some(kept) = held_entry(held, name) {
        settle_kept(held, name, kept.now);
    }
}

// Makes it durable that a name that is kept holds this body, or none.
fn settle_kept(held: &mut BTreeMap<Name, Held>, name: &Name, now: Option<usize>)
    requires kept { IsSome (get name_cmp held.old name.now) }
    requires now { now ≡ now_in held.old name.now }
    ensures now { HoldsSameNow held.old held.new }
    ensures durable { (other : List ℕ) → durable_in held.new other
        ≡ (if eq_by_cmp name_cmp name.now other then now_in held.old other else durable_in held.old other) }
{
    match now {
        None => remove_entry(held, name),
        Some(_) => set_entry(held, name, Held { durable: now, now }),
    }
}

/// Gives the name the body that it certainly holds.
pub fn take_name_back(held: &mut BTreeMap<Name, Held>, name: &Name)
    ensures now { (other : List ℕ) → now_in held.new other
        ≡ (if eq_by_cmp name_cmp name.now other then durable_in held.old other else now_in held.old other) }
    ensures durable { HoldsSameDurable held.old held.new }
    ensures places { KeepsPlaces held.old held.new }
{
    if let Some(kept) = held_entry(held, name) {
        let durable = kept.durable;
        set_entry(
            held,
            name,
            Held {
                durable,
                now: durable,
            },
        );
    }
}
