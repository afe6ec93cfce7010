//! What was synced. It is made here alone, so that nothing counts as durable that the system was not asked to sync.
ghost use Rattle.std.specs.Prelude.{◌≡◌, ◌↔◌, IfOk, IsTrue, string_bytes};

use crate::files;
use host_calls::HostFault;
use std::fs::{File, Files, OpenFile, OpenOptions};
use std::os::unix::fs::FileExt;

/// The path of a file or a directory that was synced.
#[derive(Drop)]
pub struct Synced<'a> {
    path: &'a str,
}

/// Syncs a file's bytes, or a directory's names.
pub fn sync_path<'a, R: Files<File = File>>(rt: &R, path: &'a str) -> Result<Synced<'a>, HostFault>
    ensures path { IfOk result (λ synced. synced.path.now ≡ path.now) }
{
    let Ok(file) = File::open(rt, path) else {
        return Err(HostFault::Failed);
    };
    sync_file_at(&file, path)
}

fn sync_file_at<'a>(file: &File, path: &'a str) -> Result<Synced<'a>, HostFault>
    ensures path { IfOk result (λ synced. synced.path.now ≡ path.now) }
{
    match file.sync_all() {
        Ok(()) => Ok(Synced { path }),
        Err(_) => Err(HostFault::Failed),
    }
}

/// A plain file that is open to be written to, and its path.
#[derive(Drop)]
pub struct WrittenFile {
    path: String,
    file: File,
}

impl WrittenFile {
    /// Opens the file of this path, if it is a plain one.
    pub fn open<R: Files<File = File>>(rt: &R, path: String) -> Result<WrittenFile, HostFault>
        ensures path { IfOk result (λ written. written.path ≡ path) }
    {
        let file = files::opened(rt, path.as_str(), OpenOptions::new().write(true))?;
        Ok(WrittenFile { path, file })
    }

    /// Writes over a range of it.
    pub fn write(&self, offset: u64, bytes: &[u8]) -> Result<(), HostFault> {
        self.file
            .write_all_at(bytes, offset)
            .map_err(|_| HostFault::Failed)
    }

    /// Whether this is its path.
    pub fn is_at(&self, path: &str) -> bool
        ensures { IsTrue result ↔ (string_bytes self.now.path ≡ path.now) }
    {
        self.path.as_str() == path
    }

    /// Syncs its bytes.
    pub fn sync(&self) -> Result<Synced<'_>, HostFault>
        ensures path { IfOk result (λ synced. synced.path.now ≡ string_bytes self.now.path) }
    {
        sync_file_at(&self.file, self.path.as_str())
    }
}
