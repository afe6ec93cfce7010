//! Files in the byte order of their names.
ghost use Rattle.std.specs.Prelude.{◌≡◌, Contains, IfSome, IfOk, IsTrue, IsPermutation, IsSorted, IsSortedByKey, map, not};
ghost use Rattle.std.specs.Ordering.{is_lt};
ghost use Rattle.host_calls.specs.Directory.{name_cmp};
ghost use Rattle.host_calls.specs.Names.{are_name_bytes};
ghost use Rattle.unix_host.specs.inside.Prefixes.{prefix_number};

use host_calls::Name;
use std::alloc::{AllocError, Global};
use std::cell::Cell;

/// A plain file, its length, and where its first bytes are among those of all.
#[derive(Clone, Copy)]
pub struct Listed {
    pub name: Name,
    pub length: u64,
    pub start: usize,
    pub end: usize,
}

/// Plain files in the byte order of their names.
#[derive(Drop)]
pub struct ListedFiles {
    files: Vec<Listed>,
    // The place after that of the file that was requested last: most are requested in order.
    next: Cell<usize>,
    ghost ordered: { IsSortedByKey (λ file. file.name) name_cmp files.items },
}

impl ListedFiles {
    /// These files, in whatever order they were found.
    pub fn of(alloc: Global, found: &[Listed]) -> Result<ListedFiles, AllocError>
        ensures { IfOk result (λ listed. IsPermutation found.now listed.files.items) }
    {
        let order = in_order(alloc, found)?;
        let files = rows_of(alloc, &order)?;
        Ok(ListedFiles {
            files,
            next: Cell::new(0),
        })
    }

    /// Their names, in byte order.
    pub fn names(&self, alloc: Global) -> Result<Vec<Name>, AllocError>
        ensures names { IfOk result (λ names. names.items ≡ map (λ file. file.name) self.now.files.items) }
        ensures order { IfOk result (λ names. IsSorted name_cmp names.items) }
    {
        self.files.iter().map(|file| file.name).collect(alloc)
    }

    /// The file of this name, if it exists.
    pub fn find(&self, name: &Name) -> Option<&Listed>
        ensures held { IfSome result (λ file. Contains self.now.files.items file.now) }
        ensures named { IfSome result (λ file. file.now.name ≡ name.now) }
    {
        if let Some(found) = self.file_at(self.next.get(), name) {
            return Some(found);
        }
        let files = self.files.as_slice();
        let place = files.binary_search_by(|file| file.name.cmp(name)).ok()?;
        self.file_at(place, name)
    }

    // The file at this place, if it has this name.
    fn file_at(&self, place: usize, name: &Name) -> Option<&Listed>
        ensures held { IfSome result (λ file. Contains self.now.files.items file.now) }
        ensures named { IfSome result (λ file. file.now.name ≡ name.now) }
    {
        let found = self.files.get(place)?;
        if found.name != *name {
            return None;
        }
        self.next.set(place.saturating_add(1));
        Some(found)
    }
}

// A file next to the first sixteen bytes of its name, as a number that is less where they come before.
#[derive(Clone, Copy)]
struct Prefixed<'a> {
    prefix: u128,
    file: &'a Listed,
    ghost of_name: { prefix ≡ prefix_number 16 file.now.name },
    ghost name_bytes: { IsTrue (are_name_bytes file.now.name) },
}

// The files in the order of their names. A file is long, and lies anywhere: what is sorted are references, by the prefixes of
// the names, which are next to them.
fn in_order<'a>(alloc: Global, files: &'a [Listed]) -> Result<Vec<Prefixed<'a>>, AllocError>
    ensures found { IfOk result (λ order. IsPermutation files.now (map (λ one. one.file.now) order.items)) }
    ensures ordered { IfOk result (λ order. IsSortedByKey (λ one. one.file.now.name) name_cmp order.items) }
{
    let mut order = Vec::with_capacity(alloc, files.len())?;
    for file in files {
        order.push(Prefixed {
            prefix: prefix_of(&file.name),
            file,
        })?;
    }
    order.sort_unstable_by_key(|one| one.prefix);
    sort_by_name(&mut order);
    Ok(order)
}

// Sorts by names what is mostly in order already: all but names of equal prefixes are.
fn sort_by_name(order: &mut [Prefixed<'_>])
    ensures permutation { IsPermutation order.old order.new }
    ensures ordered { IsSortedByKey (λ one. one.file.now.name) name_cmp order.new }
{
    if order.is_sorted_by(|one, other| are_in_order(one, other)) {
        return;
    }
    order.sort_unstable_by(|one, other| one.file.name.cmp(&other.file.name));
}

// Whether no name comes before the one that comes before it. Their bytes are compared only where their prefixes are equal.
fn are_in_order(one: &Prefixed<'_>, other: &Prefixed<'_>) -> bool
    ensures { result ≡ not (is_lt (name_cmp other.now.file.now.name one.now.file.now.name)) }
{
    one.prefix < other.prefix || other.file.name.cmp(&one.file.name).is_ge()
}

fn rows_of(alloc: Global, order: &[Prefixed<'_>]) -> Result<Vec<Listed>, AllocError>
    ensures { IfOk result (λ files. files.items ≡ map (λ one. one.file.now) order.now) }
{
    order.iter().map(|one| *one.file).collect(alloc)
}

// The first sixteen bytes of a name, as a number that is less where they come before.
fn prefix_of(name: &Name) -> u128
    ensures number { result ≡ prefix_number 16 name.now }
    ensures name_bytes { IsTrue (are_name_bytes name.now) }
{
    let bytes = name.as_bytes();
    let count = bytes.len().min(16);
    let mut prefix = [0; 16];
    prefix[..count].copy_from_slice(&bytes[..count]);
    u128::from_be_bytes(prefix)
}
