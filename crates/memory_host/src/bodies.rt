//! The bodies of all files.
ghost use Rattle.std.specs.Prelude.{◌≡◌, ◌+◌, ◌<◌, ◌≤◌, ◌++◌, [], ◌∷◌, length, is_ok, if◌then◌else◌};
ghost use Rattle.memory_host.specs.inside.Bodies.{kept_at, kept_made, kept_written, kept_synced, kept_crashed, with_kept, with_each};

use crate::body::Body;
use std::alloc::{AllocError, Global};

/// The bodies by their numbers, and the numbers of those that may have unsynced places.
#[derive(Drop)]
pub struct Bodies {
    list: Vec<Body>,
    unsettled: Vec<usize>,
}

impl Bodies {
    /// No bodies.
    pub fn new(alloc: Global) -> Bodies
        ensures list { result.list.items ≡ [] }
        ensures unsettled { result.unsettled.items ≡ [] }
    {
        Bodies {
            list: Vec::new(alloc),
            unsettled: Vec::new(alloc),
        }
    }

    /// How many bodies there are, which is the number of the next one.
    pub fn count(&self) -> usize
        ensures { result ≡ length self.now.list.items }
    {
        self.list.len()
    }

    /// The bytes of a body as they read now.
    pub fn bytes(&self, number: usize) -> &[u8]
        requires { number < length self.now.list.items }
        ensures { result.now ≡ (kept_at self.now.list.items number).bytes }
    {
        self.list[number].as_slice()
    }

    /// Adds the body of a file that was just made.
    pub fn make(&mut self, alloc: Global, bytes: &[u8]) -> Result<(), AllocError>
        ensures list { self.new.list.items
            ≡ (if is_ok result then self.old.list.items ++ kept_made bytes.now ∷ [] else self.old.list.items) }
        ensures unsettled { self.new.unsettled.items
            ≡ (if is_ok result then self.old.unsettled.items ++ length self.old.list.items ∷ []
            else self.old.unsettled.items) }
    {
        self.list.reserve(1)?;
        self.unsettled.reserve(1)?;
        let body = Body::made(alloc, bytes)?;
        self.unsettled.push_reserved(self.list.len());
        self.list.push_reserved(body);
        Ok(())
    }

    /// Writes over a range of a body.
    pub fn write(&mut self, number: usize, offset: usize, bytes: &[u8]) -> Result<(), AllocError>
        requires known { number < length self.old.list.items }
        requires range { offset + length bytes.now ≤ length (kept_at self.old.list.items number).bytes }
        ensures list { self.new.list.items
            ≡ (if is_ok result then with_kept (kept_written offset bytes.now) number self.old.list.items
            else self.old.list.items) }
        ensures unsettled { self.new.unsettled.items
            ≡ (if is_ok result then self.old.unsettled.items ++ number ∷ [] else self.old.unsettled.items) }
    {
        self.unsettled.reserve(1)?;
        self.list[number].write(offset, bytes)?;
        self.unsettled.push_reserved(number);
        Ok(())
    }

    /// Syncs one body.
    pub fn sync(&mut self, number: usize)
        requires { number < length self.old.list.items }
        ensures list { self.new.list.items ≡ with_kept kept_synced number self.old.list.items }
        ensures unsettled { self.new.unsettled.items ≡ self.old.unsettled.items }
    {
        self.list[number].sync();
    }

    // A number may be in the list twice: to sync a body twice is to sync it once.
    /// Syncs all bodies.
    pub fn settle(&mut self)
        ensures list { self.new.list.items ≡ with_each kept_synced self.old.unsettled.items self.old.list.items }
        ensures unsettled { self.new.unsettled.items ≡ [] }
    {
        sync_bodies(&mut self.list, &self.unsettled);
        self.unsettled.clear();
    }

    /// Makes each body what the crash of this pick leaves of it.
    pub fn crash(&mut self, pick: u64)
        ensures list { self.new.list.items
            ≡ with_each (kept_crashed pick) self.old.unsettled.items self.old.list.items }
        ensures unsettled { self.new.unsettled.items ≡ [] }
    {
        crash_each(&mut self.list, &self.unsettled, pick);
        self.unsettled.clear();
    }
}

// Syncs the bodies of these numbers.
fn sync_bodies(list: &mut [Body], numbers: &[usize])
    ensures { list.new ≡ with_each kept_synced numbers.now list.old }
{
    for number in numbers {
        sync_one(list, *number);
    }
}

// Makes the bodies of these numbers what the crash of this pick leaves of them.
fn crash_each(list: &mut [Body], numbers: &[usize], pick: u64)
    ensures { list.new ≡ with_each (kept_crashed pick) numbers.now list.old }
{
    for number in numbers {
        crash_one(list, *number, pick);
    }
}

// Syncs the body of this number, if there is one.
fn sync_one(list: &mut [Body], number: usize)
    ensures { list.new ≡ with_kept kept_synced number list.old }
{
    if number < list.len() {
        list[number].sync();
    }
}

// Makes the body of this number what the crash of this pick leaves of it, if there is one.
fn crash_one(list: &mut [Body], number: usize, pick: u64)
    ensures { list.new ≡ with_kept (kept_crashed pick) number list.old }
{
    if number < list.len() {
        list[number].crash(pick);
    }
}
