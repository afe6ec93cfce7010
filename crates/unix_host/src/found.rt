//! The plain files that are found in a directory, before they are in order.
ghost use Rattle.std.specs.Prelude.{◌≡◌, ◌++◌, [], OnOk};
ghost use Rattle.unix_host.specs.inside.Found.{HasFound};

use crate::listed_files::Listed;
use host_calls::Name;
use std::alloc::{AllocError, Global};

/// The plain files that were found so far, in whatever order, and the first bytes of each, one after the other.
#[derive(Drop)]
pub struct FoundFiles {
    pub files: Vec<Listed>,
    pub heads: Vec<u8>,
}

impl FoundFiles {
    /// Before any was found.
    pub fn none(alloc: Global) -> FoundFiles
        ensures files { result.files.items ≡ [] }
        ensures heads { result.heads.items ≡ [] }
    {
        FoundFiles {
            files: Vec::new(alloc),
            heads: Vec::new(alloc),
        }
    }

    /// One more, of this length, with these first bytes.
    pub fn add(&mut self, name: &Name, length: u64, head: &[u8]) -> Result<(), AllocError>
        ensures { OnOk result (HasFound name.now length head.now self.old self.new) }
    {
        let start = self.heads.len();
        self.heads.extend_from_slice(head)?;
        let end = self.heads.len();
        self.files.push(Listed {
            name: *name,
            length,
            start,
            end,
        })?;
        Ok(())
    }
}
