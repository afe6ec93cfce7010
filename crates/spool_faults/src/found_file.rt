//! A job's file as it was found.
ghost use Rattle.std.specs.Prelude.{◌≡◌, ℕ, List, IfSome};
ghost use Rattle.job_script.specs.HeaderIn.{header_in};
ghost use Rattle.spool_faults.specs.inside.FoundFiles.{HasNumbers, file_found};
ghost use Rattle.spool_shows.specs.JobFiles.{damage_of, file_place, header_fault_in};

use host_calls::{Bytes, Damage, Name};
use job_name::JobName;
use job_script::header_fault;
use std::collections::BTreeSet;

// A job's file, by its name and its first bytes.
#[derive(Drop)]
pub(crate) struct FoundFile {
    pub(crate) name: Name,
    pub(crate) job: JobName,
    // As many of its first bytes as a header can have, or all.
    pub(crate) prefix: Bytes,
}

impl FoundFile {
    // The fault of the file, after files of these numbers.
    pub(crate) fn fault(&self, bound: u32, before: &BTreeSet<u32>) -> Option<Damage>
        ensures { (numbers : List ℕ) → HasNumbers numbers before.now
            → result ≡ damage_of (file_found self.now) (file_place bound numbers (file_found self.now)) }
    {
        let place = self.place(bound, before)?;
        Some(Damage::at(self.name, self.prefix.as_slice(), place))
    }

    // The place of that fault.
    fn place(&self, bound: u32, before: &BTreeSet<u32>) -> Option<usize>
        ensures { (numbers : List ℕ) → HasNumbers numbers before.now
            → result ≡ file_place bound numbers (file_found self.now) }
    {
        if bound < self.job.number || before.contains(&self.job.number) {
            return Some(0);
        }
        self.header_place()
    }

    // The place where its first bytes leave the form of a header, if they begin with none.
    pub(crate) fn header_place(&self) -> Option<usize>
        ensures { result ≡ header_fault_in self.now.prefix (header_in self.now.prefix) }
    {
        match header_fault(self.prefix.as_slice()) {
            Some(place) => Some(place as usize),
            None => None,
        }
    }
}
