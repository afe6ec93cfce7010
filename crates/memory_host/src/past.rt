//! All that happened to a directory.
ghost use Rattle.std.specs.Prelude.{◌≡◌, IfOk, IsSome, is_ok, length, if◌then◌else◌};
ghost use Rattle.std.specs.Option.{option_copied};
ghost use Rattle.std.specs.FinMap as map;
ghost use Rattle.host_calls.specs.Directory.{IsFresh, IsHeldAt, names_of, reading_of};
ghost use Rattle.host_calls.specs.World.{IsWithinFile};
ghost use Rattle.memory_host.specs.inside.Story.{Follows, Opens, state_of, with_next};
ghost use Rattle.memory_host.specs.inside.Known.{MakesFile};

use crate::Files;
use crate::bodies::Bodies;
use crate::name_table::NameTable;
use crate::past_call::PastCall;
use crate::pending::Change;
use host_calls::{Bytes, Handed, Name};
use std::alloc::{AllocError, Global};
use std::collections::BTreeMap;
use std::marker::Model;

/// The files at first and each call that changed them, and what they came to.
#[derive(Drop)]
pub struct Past {
    opening: BTreeMap<Name, Bytes>,
    calls: Vec<PastCall>,
    names: NameTable,
    bodies: Bodies,
    handed: Vec<Handed>,
}

impl Model for Past {
    ghost use Rattle.memory_host.specs.Past.{CallLog};
    ghost use Rattle.memory_host.specs.inside.Story.{state_of};
    ghost use Rattle.memory_host.specs.inside.Known.{IsStateKept};

    ghost Value = { CallLog };

    ghost view = { λ past. record { opening = past.opening.entries; calls = past.calls.items } };

    ghost invariant = { λ past. IsStateKept (state_of (record { opening = past.opening.entries; calls = past.calls.items }))
        past.names past.bodies past.handed.items };
}

impl Past {
    /// A directory with these files, all of it durable.
    pub fn open(alloc: Global, files: Files) -> Result<Past, AllocError>
        ensures { IfOk result (Opens files) }
    {
        let mut names = NameTable::new(alloc);
        let mut bodies = Bodies::new(alloc);
        for (name, bytes) in files.inner.iter() {
            add_file(alloc, &mut names, &mut bodies, name, bytes.as_slice())?;
        }
        names.sync();
        bodies.settle();
        let Files { inner } = files;
        Ok(Past {
            opening: inner,
            calls: Vec::new(alloc),
            names,
            bodies,
            handed: Vec::new(alloc),
        })
    }

    /// All scripts that were started.
    pub fn handed(&self) -> &[Handed]
        ensures { result.now ≡ (state_of self.now).handed }
    {
        &self.handed
    }

    /// The bytes of a name, if there is a file.
    pub fn reading(&self, name: &Name) -> Option<&[u8]>
        ensures { option_copied result ≡ map.get (reading_of (state_of self.now).directory) name.now }
    {
        match self.names.number(name) {
            Some(number) => Some(self.bodies.bytes(number)),
            None => None,
        }
    }

    /// The bytes of a file that exists.
    pub fn bytes(&self, name: &Name) -> &[u8]
        requires { IsSome (map.get (reading_of (state_of self.now).directory) name.now) }
        ensures { map.get (reading_of (state_of self.now).directory) name.now ≡ Some result.now }
    {
        match self.reading(name) {
            Some(bytes) => bytes,
            None => unreachable!(),
        }
    }

    // The number of a file that exists.
    fn number(&self, name: &Name) -> usize
        requires { IsSome (map.get (reading_of (state_of self.now).directory) name.now) }
        ensures held { IsHeldAt (names_of (state_of self.now).directory) name.now result }
    {
        match self.names.number(name) {
            Some(number) => number,
            None => unreachable!(),
        }
    }

    /// The names of the files, in byte order.
    pub fn names(&self, alloc: Global) -> Result<Vec<Name>, AllocError>
        ensures { IfOk result (λ names. names.items ≡ map.keys (reading_of (state_of self.now).directory)) }
    {
        self.names.names(alloc)
    }

    /// Makes a file under the number of the next body.
    pub fn create(&mut self, alloc: Global, name: &Name, bytes: &[u8]) -> Result<(), AllocError>
        ensures fresh { IsFresh (state_of self.old).directory (state_of self.old).next }
        ensures made { self.new
            ≡ (if is_ok result then with_next (PastCall.Made name.now bytes.now) self.old else self.old) }
    {
        self.calls.reserve(1)?;
        let copy = Bytes::of(alloc, bytes)?;
        add_file(alloc, &mut self.names, &mut self.bodies, name, bytes)?;
        self.calls.push_reserved(PastCall::Made(*name, copy));
        Ok(())
    }

    /// Writes over a range of a file.
    pub fn write(
        &mut self,
        alloc: Global,
        name: &Name,
        offset: u64,
        bytes: &[u8],
    ) -> Result<(), AllocError>
        requires { IsWithinFile (reading_of (state_of self.old).directory) name.now offset (length bytes.now) }
        ensures { Follows (λ number. PastCall.Written number offset bytes.now) name.now self.old self.new result }
    {
        let number = self.number(name);
        let place = offset as usize;
        self.calls.reserve(1)?;
        let copy = Bytes::of(alloc, bytes)?;
        self.bodies.write(number, place, bytes)?;
        self.calls
            .push_reserved(PastCall::Written(number, place, copy));
        Ok(())
    }

    /// Syncs a file.
    pub fn sync(&mut self, name: &Name) -> Result<(), AllocError>
        requires { IsSome (map.get (reading_of (state_of self.old).directory) name.now) }
        ensures { Follows (λ number. PastCall.Synced number) name.now self.old self.new result }
    {
        let number = self.number(name);
        self.calls.reserve(1)?;
        self.bodies.sync(number);
        self.calls.push_reserved(PastCall::Synced(number));
        Ok(())
    }

    /// Syncs all names.
    pub fn sync_names(&mut self) -> Result<(), AllocError>
        ensures { self.new ≡ (if is_ok result then with_next PastCall.NamesSynced self.old else self.old) }
    {
        self.calls.reserve(1)?;
        self.names.sync();
        self.calls.push_reserved(PastCall::NamesSynced);
        Ok(())
    }

    /// Syncs all names and all bytes.
    pub fn settle(&mut self) -> Result<(), AllocError>
        ensures { self.new ≡ (if is_ok result then with_next PastCall.Settled self.old else self.old) }
    {
        self.calls.reserve(1)?;
        self.names.sync();
        self.bodies.settle();
        self.calls.push_reserved(PastCall::Settled);
        Ok(())
    }

    /// Moves a file to another name.
    pub fn rename(&mut self, from: &Name, to: &Name) -> Result<(), AllocError>
        requires { IsSome (map.get (reading_of (state_of self.old).directory) from.now) }
        ensures { self.new
            ≡ (if is_ok result then with_next (PastCall.Renamed from.now to.now) self.old else self.old) }
    {
        self.calls.reserve(1)?;
        self.names.reserve(from)?;
        self.names.reserve(to)?;
        self.names.change(Change::Renamed(*from, *to));
        self.calls.push_reserved(PastCall::Renamed(*from, *to));
        Ok(())
    }

    /// Removes a name.
    pub fn remove(&mut self, name: &Name) -> Result<(), AllocError>
        requires { IsSome (map.get (reading_of (state_of self.old).directory) name.now) }
        ensures { self.new ≡ (if is_ok result then with_next (PastCall.Removed name.now) self.old else self.old) }
    {
        self.calls.reserve(1)?;
        self.names.reserve(name)?;
        self.names.change(Change::Removed(*name));
        self.calls.push_reserved(PastCall::Removed(*name));
        Ok(())
    }

    /// Starts a file's script, under this number and niceness. Whether a child came of it is reported.
    pub fn hand_over(
        &mut self,
        alloc: Global,
        number: u32,
        name: &Name,
        nice: u8,
        started: bool,
    ) -> Result<(), AllocError>
        requires { IsSome (map.get (reading_of (state_of self.old).directory) name.now) }
        ensures { Follows (λ body. PastCall.HandedOver number body nice started) name.now self.old self.new result }
    {
        let body = self.number(name);
        self.calls.reserve(1)?;
        self.handed.reserve(1)?;
        let script = Bytes::of(alloc, self.bodies.bytes(body))?;
        self.handed.push_reserved(Handed {
            number,
            script,
            nice,
            started,
        });
        self.calls
            .push_reserved(PastCall::HandedOver(number, body, nice, started));
        Ok(())
    }

    /// Crashes, and leaves the image that the pick names.
    pub fn reboot(&mut self, pick: u64) -> Result<(), AllocError>
        ensures { self.new ≡ (if is_ok result then with_next (PastCall.Rebooted pick) self.old else self.old) }
    {
        self.calls.reserve(1)?;
        self.names.crash(pick);
        self.bodies.crash(pick);
        self.calls.push_reserved(PastCall::Rebooted(pick));
        Ok(())
    }
}

// Makes a file under the next number. Where there is no room, at most a name that holds nothing is
// kept more.
fn add_file(
    alloc: Global,
    names: &mut NameTable,
    bodies: &mut Bodies,
    name: &Name,
    bytes: &[u8],
) -> Result<(), AllocError>
    ensures { MakesFile name.now bytes.now names.old names.new bodies.old bodies.new result }
{
    names.reserve(name)?;
    let number = bodies.count();
    bodies.make(alloc, bytes)?;
    names.change(Change::Made(*name, number));
    Ok(())
}
