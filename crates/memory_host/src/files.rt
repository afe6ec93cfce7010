//! Files by their names.
ghost use Rattle.std.specs.Prelude.{◌≡◌, is_ok, if◌then◌else◌};
ghost use Rattle.std.specs.FinMap as map;

use host_calls::{Bytes, Name};
use std::alloc::{AllocError, Global};
use std::collections::BTreeMap;
use std::marker::Model;

/// The bytes of files by their names. A contract sees them as a finite map.
#[derive(Drop)]
pub struct Files {
    pub(crate) inner: BTreeMap<Name, Bytes>,
}

impl Model for Files {
    ghost use Rattle.std.specs.Coded.{coded_list, coded_ℕ};
    ghost use Rattle.std.specs.FinMap as map;
    ghost use Rattle.std.specs.FinMap.{from_entries};
    ghost use Rattle.host_calls.specs.Directory.{Files as FileMap};

    ghost Value = { FileMap };

    ghost coded = { map.code (coded_list coded_ℕ) (coded_list coded_ℕ) };

    ghost view = { λ files. from_entries files.inner.entries };
}

impl Files {
    /// No files.
    pub fn new(alloc: Global) -> Files
        ensures { result ≡ map.empty }
    {
        Files {
            inner: BTreeMap::new(alloc),
        }
    }

    /// Sets the bytes of a name.
    pub fn put(&mut self, alloc: Global, name: Name, bytes: &[u8]) -> Result<(), AllocError>
        ensures { self.new ≡ (if is_ok result then map.insert self.old name bytes.now else self.old) }
    {
        let copy = Bytes::of(alloc, bytes)?;
        self.inner.insert(name, copy)?;
        Ok(())
    }
}
