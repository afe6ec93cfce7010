//! The body of a file.
ghost use Rattle.std.specs.Prelude.{◌≡◌, ◌+◌, ◌≤◌, ◌%◌, ◌||◌, not, take, length, IfOk, OnErr, if◌then◌else◌};
ghost use Rattle.host_calls.specs.Directory.{is_within};
ghost use Rattle.memory_host.specs.inside.Bodies.{kept_made, kept_written, kept_synced, kept_crashed, lies_in};
ghost use Rattle.memory_host.specs.Crash.{picked_byte, picked_bytes};

use std::alloc::{AllocError, Global};
use std::marker::Model;

/// A range of places.
#[derive(Clone, Copy)]
pub struct Range {
    pub offset: usize,
    pub count: usize,
}

/// The bytes of a file, whether it was synced since it was made, and the ranges that were written since.
/// All places of a file that was never synced are not synced.
#[derive(Drop)]
pub struct Body {
    bytes: Vec<u8>,
    is_synced: bool,
    ranges: Vec<Range>,
}

impl Model for Body {
    ghost use Rattle.memory_host.specs.inside.Bodies.{KeptBody};

    ghost Value = { KeptBody };

    ghost view = { λ body.
        record { bytes = body.bytes.items; is_synced = body.is_synced; ranges = body.ranges.items } };
}

impl Body {
    /// A file that was just made.
    pub fn made(alloc: Global, bytes: &[u8]) -> Result<Body, AllocError>
        ensures { IfOk result (λ body. body ≡ kept_made bytes.now) }
    {
        Ok(Body {
            bytes: Vec::from_slice(alloc, bytes)?,
            is_synced: false,
            ranges: Vec::new(alloc),
        })
    }

    /// The bytes as they read now.
    pub fn as_slice(&self) -> &[u8]
        ensures { result.now ≡ self.now.bytes }
    {
        &self.bytes
    }

    /// Writes over a range.
    pub fn write(&mut self, offset: usize, bytes: &[u8]) -> Result<(), AllocError>
        requires { offset + length bytes.now ≤ length self.old.bytes }
        ensures written { IfOk result (λ _. self.new ≡ kept_written offset bytes.now self.old) }
        ensures err { OnErr result (self.new ≡ self.old) }
    {
        let count = bytes.len();
        self.ranges.push(Range { offset, count })?;
        self.bytes[offset..offset + count].copy_from_slice(bytes);
        Ok(())
    }

    /// Makes all of it durable.
    pub fn sync(&mut self)
        ensures { self.new ≡ kept_synced self.old }
    {
        self.is_synced = true;
        self.ranges.clear();
    }

    /// Becomes what the crash of this pick leaves of it.
    pub fn crash(&mut self, pick: u64)
        ensures { self.new ≡ kept_crashed pick self.old }
    {
        if !self.is_synced {
            cut(&mut self.bytes, pick);
        }
        change_bytes(&mut self.bytes, self.is_synced, &self.ranges, pick);
        self.sync();
    }
}

impl Range {
    fn holds(&self, place: usize) -> bool
        ensures { result ≡ is_within self.now.offset self.now.count place }
    {
        self.offset <= place && place - self.offset < self.count
    }
}

fn crashed_byte(pick: u64, place: usize) -> u8
    ensures { result ≡ picked_byte pick place }
{
    ((pick % 256 + place as u64 % 256) % 256) as u8
}

// Cuts the bytes of a file that was never synced.
fn cut(bytes: &mut Vec<u8>, pick: u64)
    ensures { bytes.new.items ≡ take (pick % (length bytes.old.items + 1)) bytes.old.items }
{
    let most = bytes.len() as u64 + 1;
    bytes.truncate((pick % most) as usize);
}

// Whether the place lies in one of the ranges.
fn lies_in_one(ranges: &[Range], place: usize) -> bool
    ensures { result ≡ lies_in ranges.now place }
{
    ranges.iter().any(|range| range.holds(place))
}

// The byte that a crash leaves of this one.
fn byte_left(is_synced: bool, ranges: &[Range], pick: u64, place: usize, byte: u8) -> u8
    ensures { result ≡ (if not is_synced || lies_in ranges.now place then picked_byte pick place else byte) }
{
    if !is_synced || lies_in_one(ranges, place) {
        crashed_byte(pick, place)
    } else {
        byte
    }
}

// Changes the bytes at the unsynced places.
fn change_bytes(bytes: &mut [u8], is_synced: bool, ranges: &[Range], pick: u64)
    ensures { bytes.new ≡ picked_bytes pick (λ place. not is_synced || lies_in ranges.now place) 0 bytes.old }
{
    for place in 0..bytes.len() {
        bytes[place] = byte_left(is_synced, ranges, pick, place, bytes[place]);
    }
}
