//! What a session knows of the directory by its listing, which is kept until the directory is changed.
ghost use Rattle.std.specs.Prelude.{◌≡◌, Contains, IsSorted, IfOk, IfSome, Some, length, option_map};
ghost use Rattle.host_calls.specs.Directory.{name_cmp};
ghost use Rattle.unix_host.specs.Listings.{count_from, listed_bytes, names_in};

use crate::files;
use crate::listed_files::Listed;
use crate::locked::LockedDirectory;
use host_calls::{HostFault, Name};
use std::alloc::Global;
use std::fs::{File, Files};

impl LockedDirectory {
    /// The names of the plain files, in byte order: those of the kept listing, where there is one.
    pub fn names<R: Files<File = File>>(
        &mut self,
        rt: &R,
        alloc: Global,
        most: usize,
    ) -> Result<Vec<Name>, HostFault>
        ensures order { IfOk result (λ names. IsSorted name_cmp names.items) }
        ensures kept { IfOk result (λ names. IfSome self.old.listing (λ listing. names.items ≡ names_in listing)) }
        ensures keeps { IfOk result (λ names. option_map names_in self.new.listing ≡ Some names.items) }
        ensures changes { self.new.changes ≡ self.old.changes }
    {
        let listing = match self.listing.take() {
            Some(listing) => listing,
            None => files::list_files(rt, alloc, &self.paths, most)?,
        };
        let names = listing.names(alloc);
        self.listing = Some(listing);
        Ok(names?)
    }

    /// A file by the kept listing.
    pub fn listed(&self, name: &Name) -> Option<&Listed>
        ensures held { IfSome result (λ file. IfSome self.now.listing (λ listing.
            Contains listing.listed.files.items file.now)) }
        ensures named { IfSome result (λ file. file.now.name ≡ name.now) }
    {
        match &self.listing {
            Some(listing) => listing.find(name),
            None => None,
        }
    }

    /// What a listed file has from an offset on, or `most` bytes of it, if the kept listing tells.
    pub fn first_bytes(&self, file: &Listed, offset: u64, most: usize) -> Option<&[u8]>
        ensures whole { IfSome result (λ bytes. length bytes.now ≡ count_from file.now.length offset most) }
        ensures kept { IfSome result (λ bytes. IfSome self.now.listing (λ listing.
            bytes.now ≡ listed_bytes listing file.now offset most)) }
    {
        match &self.listing {
            Some(listing) => listing.bytes_of(file, offset, most),
            None => None,
        }
    }
}
