//! What a directory holds at one moment of a session.
ghost use Rattle.std.specs.Prelude.{◌≡◌, Contains, IfSome, IfOk, IsPermutation, IsSorted, length};
ghost use Rattle.host_calls.specs.Directory.{name_cmp};
ghost use Rattle.unix_host.specs.Listings.{count_from, listed_bytes, names_in};

use crate::found::FoundFiles;
use crate::listed_files::{Listed, ListedFiles};
use host_calls::Name;
use std::alloc::{AllocError, Global};

/// The plain files of a directory, and the first bytes of each, one after the other.
#[derive(Drop)]
pub struct Listing {
    listed: ListedFiles,
    heads: Vec<u8>,
}

impl Listing {
    /// The listing of these files, in whatever order they were found.
    pub fn of(alloc: Global, found: FoundFiles) -> Result<Listing, AllocError>
        ensures files { IfOk result (λ listing. IsPermutation found.files.items listing.listed.files.items) }
        ensures heads { IfOk result (λ listing. listing.heads ≡ found.heads) }
    {
        let FoundFiles { files, heads } = found;
        let listed = ListedFiles::of(alloc, &files)?;
        Ok(Listing { listed, heads })
    }

    /// The names, in byte order.
    pub fn names(&self, alloc: Global) -> Result<Vec<Name>, AllocError>
        ensures names { IfOk result (λ names. names.items ≡ names_in self.now) }
        ensures order { IfOk result (λ names. IsSorted name_cmp names.items) }
    {
        self.listed.names(alloc)
    }

    /// The file of this name, if it exists.
    pub fn find(&self, name: &Name) -> Option<&Listed>
        ensures held { IfSome result (λ file. Contains self.now.listed.files.items file.now) }
        ensures named { IfSome result (λ file. file.now.name ≡ name.now) }
    {
        self.listed.find(name)
    }

    /// What a listed file has from an offset on, or `most` bytes of it, if its first bytes tell.
    pub fn bytes_of(&self, file: &Listed, offset: u64, most: usize) -> Option<&[u8]>
        ensures whole { IfSome result (λ bytes. length bytes.now ≡ count_from file.now.length offset most) }
        ensures kept { IfSome result (λ bytes. bytes.now ≡ listed_bytes self.now file.now offset most) }
    {
        let count = count_after(file.length, offset, most);
        let start = usize::try_from(offset).ok()?;
        let head = self.heads.get(file.start..file.end)?;
        head.get(start..start.checked_add(count)?)
    }
}

/// How many bytes of a file of this length are read from an offset on, where so many are wanted at most.
pub fn count_after(length: u64, offset: u64, most: usize) -> usize
    ensures { result ≡ count_from length offset most }
{
    let after = length.saturating_sub(offset);
    usize::try_from(after).unwrap_or(usize::MAX).min(most)
}
