//! The file and the directory that a session locks. A `LockedFile` is made here alone, so that nothing counts as locked that
//! the system was not asked to lock.
ghost use Rattle.std.specs.Prelude.{◌≡◌, IfOk};
ghost use Rattle.unix_host.specs.inside.Locks.{AreBoth, IsTriedAt, lock_path};

use crate::paths::Paths;
use host_calls::EnterFault;
use std::fs;
use std::fs::{File, Files, OpenOptions, TryLockError};
use std::os::unix::fs::{MetadataExt, OpenOptionsExt};

/// What a session locks.
#[derive(Clone, Copy, Debug, PartialEq, Eq)]
pub enum LockPlace {
    /// The file next to the directory.
    Beside,
    /// The directory itself.
    Within,
}

/// A file or a directory that is open, to be locked.
#[derive(Drop)]
pub struct LockFile {
    place: LockPlace,
    file: File,
}

/// The same once its lock is held, until it is let go or the process ends.
#[derive(Drop)]
pub struct LockedFile {
    pub place: LockPlace,
    pub file: File,
}

/// What a try at the lock of one of them came to.
#[derive(Drop)]
enum Tried {
    Held(LockedFile),
    Taken(LockFile),
}

/// What a try at both locks came to. Where one is taken, neither is held.
#[derive(Drop)]
pub enum BothLocks {
    Held(LockedFile, LockedFile),
    Taken(LockFile, LockFile),
}

impl LockFile {
    /// Opens what is locked there. The file is made where it is absent.
    pub fn open<R: Files<File = File>>(
        rt: &R,
        paths: &Paths,
        place: LockPlace,
    ) -> Result<LockFile, EnterFault>
        ensures { IfOk result (λ file. file.place ≡ place) }
    {
        let mut options = OpenOptions::new();
        options.read(true);
        if place == LockPlace::Beside {
            options.write(true).create(true).mode(0o600);
        }
        match options.open(rt, locked_path(paths, place)) {
            Ok(file) => Ok(LockFile { place, file }),
            Err(_) => Err(EnterFault::Failed),
        }
    }

    // Tries the lock. An error is a fault of the file; a directory that can't be locked, as on NFS, counts as locked.
    fn try_lock(self) -> Result<Tried, EnterFault>
        ensures { IfOk result (λ tried. IsTriedAt self.place tried) }
    {
        let LockFile { place, file } = self;
        match file.try_lock() {
            Ok(()) => Ok(Tried::Held(LockedFile { place, file })),
            Err(TryLockError::WouldBlock) => Ok(Tried::Taken(LockFile { place, file })),
            Err(TryLockError::Error(_)) if place == LockPlace::Within => {
                Ok(Tried::Held(LockedFile { place, file }))
            }
            Err(TryLockError::Error(_)) => Err(EnterFault::Failed),
        }
    }
}

impl LockedFile {
    /// Whether its path still names it.
    pub fn is_named<R: Files>(&self, rt: &R, paths: &Paths) -> bool {
        let path = locked_path(paths, self.place);
        match (fs::metadata(rt, path), self.file.metadata()) {
            (Ok(named), Ok(held)) => named.ino() == held.ino() && named.dev() == held.dev(),
            _ => false,
        }
    }

    /// Lets the lock go.
    pub fn let_go(self) -> LockFile
        ensures { result.place ≡ self.place }
    {
        let LockedFile { place, file } = self;
        // (closing the file frees the lock too)
        let _ = file.unlock();
        LockFile { place, file }
    }
}

/// Tries the lock of the file next to the directory, and then that of the directory.
pub fn try_both(beside: LockFile, within: LockFile) -> Result<BothLocks, EnterFault>
    ensures { IfOk result (λ both. AreBoth beside.place within.place both) }
{
    let beside = match beside.try_lock()? {
        Tried::Held(beside) => beside,
        Tried::Taken(beside) => return Ok(BothLocks::Taken(beside, within)),
    };
    match within.try_lock()? {
        Tried::Held(within) => Ok(BothLocks::Held(beside, within)),
        // Who waits with one lock held stops all others.
        Tried::Taken(within) => Ok(BothLocks::Taken(beside.let_go(), within)),
    }
}

// The path of what is locked there.
fn locked_path(paths: &Paths, place: LockPlace) -> &str
    ensures { result.now ≡ lock_path paths.now place }
{
    match place {
        LockPlace::Beside => paths.lock(),
        LockPlace::Within => paths.whole(),
    }
}
