//! The entries of the job table, by their numbers.
ghost use Rattle.std.specs.Prelude.{◌≡◌, OnOk, OnErr, IsSome, Some, None};
ghost use Rattle.std.specs.Option.{option_copied};
ghost use Rattle.std.specs.FinMap as finite;
ghost use Rattle.spool_model.specs.Steps.{with_state};
ghost use Rattle.spool_model.specs.declared.entry.Entry.TheVariants.{Done};

use crate::{Entry, Fate, State};
use std::alloc::{AllocError, Global};
use std::collections::BTreeMap;
use std::marker::Model;

/// A map from the numbers of jobs to entries. A contract sees it as a finite map.
#[derive(Drop)]
pub struct JobEntries {
    map: BTreeMap<u32, Entry>,
}

impl Model for JobEntries {
    ghost use Rattle.std.specs.FinMap.{from_entries};
    ghost use Rattle.spool_model.specs.JobTable.{JobEntries};
    ghost use Rattle.spool_model.specs.Codes.{entries_code};

    ghost Value = { JobEntries };

    ghost coded = { entries_code };

    ghost view = { λ entries. from_entries entries.map.entries };
}

impl JobEntries {
    /// No entries. It takes no memory yet.
    pub fn new(alloc: Global) -> JobEntries
        ensures { result ≡ finite.empty }
    {
        JobEntries {
            map: BTreeMap::new(alloc),
        }
    }

    /// The entry under the number, if there is one.
    pub fn get(&self, number: u32) -> Option<&Entry>
        ensures { option_copied result ≡ finite.get self.now number }
    {
        self.map.get(&number)
    }

    /// Puts the entry under the number.
    pub fn insert(&mut self, number: u32, entry: Entry) -> Result<(), AllocError>
        ensures ok { OnOk result (self.new ≡ finite.insert self.old number entry) }
        ensures err { OnErr result (self.new ≡ self.old) }
    {
        self.map.insert(number, entry)?;
        Ok(())
    }

    /// Sets the state of the live job under the number. Where there is none, nothing changes.
    pub fn set_state(&mut self, number: u32, state: State)
        ensures { self.new ≡ with_state number state (finite.get self.old number) self.old }
    {
        if let Some(entry) = self.map.get_mut(&number) {
            entry.set_state(state);
        }
    }

    /// Puts the fate in the place of the entry that is under the number.
    pub fn decide(&mut self, number: u32, fate: Fate)
        requires { IsSome (finite.get self.old number) }
        ensures { self.new ≡ finite.insert self.old number (Done fate) }
    {
        if let Some(entry) = self.map.get_mut(&number) {
            entry.decide(fate);
        }
    }

    /// Removes the entry under the number.
    pub fn remove(&mut self, number: u32)
        ensures { self.new ≡ finite.remove self.old number }
    {
        self.map.remove(&number);
    }
}
