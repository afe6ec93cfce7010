//! What a session and those before it may have left unsynced.
ghost use Rattle.std.specs.Prelude.{◌≡◌, ◌≢◌, Some, length, option_map, string_bytes, true, false};
ghost use Rattle.unix_host.specs.Listings.{names_in};
ghost use Rattle.unix_host.specs.Unsynced.{unsynced_by};
ghost use Rattle.unix_host.specs.inside.Changes.{unsynced_left_by};
ghost use Rattle.unix_host.specs.inside.Paths.{file_in};
ghost use Rattle.unix_host.specs.inside.Torn.{HasTorn, HasWhole, HasMoved};

use crate::files_left::FilesLeft;
use crate::listing::Listing;
use crate::lock::Lock;
use crate::paths::Paths;
use crate::synced::Synced;
use crate::torn::Torn;
use crate::unsynced::Unsynced;
use host_calls::Name;

/// What of the directory may be unsynced at one moment of a session. Each method answers what may be after a call.
#[derive(Clone, Copy)]
pub struct Changes {
    names: bool,
    torn: Torn,
    has_failed: bool,
}

impl Changes {
    /// What a session begins with, by what the byte of the lock tells.
    pub fn after(lock: &Lock) -> Changes
        ensures known { unsynced_by result ≡ lock.now.known }
        ensures names { lock.now.known ≢ Unsynced.Nothing → result.names ≡ true }
        ensures failed { result.has_failed ≡ false }
    {
        let known = lock.known();
        let torn = match known {
            Unsynced::Anything => Torn::Each,
            Unsynced::Nothing | Unsynced::Names => Torn::Nobody,
        };
        Changes {
            names: known != Unsynced::Nothing,
            torn,
            has_failed: false,
        }
    }

    /// What the next session is to be told.
    pub fn left(&self) -> Unsynced
        ensures { result ≡ unsynced_left_by self.now }
    {
        if self.has_failed || self.torn.is_some() {
            Unsynced::Anything
        } else if self.names {
            Unsynced::Names
        } else {
            Unsynced::Nothing
        }
    }

    /// A file is made.
    pub fn made(&self, name: &Name) -> Changes
        ensures names { result.names ≡ true }
        ensures torn { HasTorn name.now self.now.torn result.torn }
        ensures failed { result.has_failed ≡ self.now.has_failed }
    {
        Changes {
            names: true,
            torn: self.torn.with(name),
            ..*self
        }
    }

    /// A range of a file is written.
    pub fn written(&self, name: &Name) -> Changes
        ensures names { result.names ≡ self.now.names }
        ensures torn { HasTorn name.now self.now.torn result.torn }
        ensures failed { result.has_failed ≡ self.now.has_failed }
    {
        Changes {
            torn: self.torn.with(name),
            ..*self
        }
    }

    /// A file gets another name.
    pub fn moved(&self, from: &Name) -> Changes
        ensures names { result.names ≡ true }
        ensures torn { HasMoved from.now self.now.torn result.torn }
        ensures failed { result.has_failed ≡ self.now.has_failed }
    {
        Changes {
            names: true,
            torn: self.torn.moved(from),
            ..*self
        }
    }

    /// A file is removed.
    pub fn removed(&self) -> Changes
        ensures { result ≡ record self.now { names = true } }
    {
        Changes {
            names: true,
            ..*self
        }
    }

    /// The bytes of a file were synced.
    pub fn synced(&self, paths: &Paths, name: &Name, file: Synced<'_>) -> Changes
        requires { file.path.now ≡ file_in (string_bytes paths.now.directory) name.now }
        ensures names { result.names ≡ self.now.names }
        ensures torn { HasWhole name.now self.now.torn result.torn }
        ensures failed { result.has_failed ≡ self.now.has_failed }
    {
        let _ = paths;
        drop(file);
        Changes {
            torn: self.torn.without(name),
            ..*self
        }
    }

    /// The bytes of each listed file were synced, and the name of the directory itself.
    pub fn all_synced(
        &self,
        listing: &Option<Listing>,
        files: FilesLeft<'_>,
        parent: Synced<'_>,
    ) -> Changes
        requires listed { option_map names_in listing.now ≡ Some files.listed.now }
        requires each { length files.left.now ≡ 0 }
        requires parent { parent.path.now ≡ string_bytes files.paths.now.parent }
        ensures { result ≡ record self.now { torn = Torn.Nobody } }
    {
        let _ = listing;
        drop(files);
        drop(parent);
        Changes {
            torn: Torn::Nobody,
            ..*self
        }
    }

    /// The names were synced.
    pub fn names_synced(&self, paths: &Paths, directory: Synced<'_>) -> Changes
        requires { directory.path.now ≡ string_bytes paths.now.directory }
        ensures { result ≡ record self.now { names = false } }
    {
        let _ = paths;
        drop(directory);
        Changes {
            names: false,
            ..*self
        }
    }

    /// A call failed.
    pub fn failed(&self) -> Changes
        ensures { result ≡ record self.now { has_failed = true } }
    {
        Changes {
            has_failed: true,
            ..*self
        }
    }
}
