//! The two locks of a session, and the byte next to the directory that says whether anything is unsynced.
//!
//! A session holds the file `SPOOL.lock`, and the directory itself: whoever comes by another path, or after the file was
//! removed, finds the directory locked. Both are had or neither, and only where both are still what their paths name.
//!
//! `SPOOL.lock` holds one byte, which is read and written only under the locks:
//!
//! - `c`: nothing of the directory is unsynced;
//! - `n`: only changes of names are unsynced;
//! - any other byte, or none: anything may be unsynced.
//!
//! In which order it is written:
//!
//! 1. Before a call that changes the directory, it is made to say at least what is unsynced after that call.
//! 2. After a sync it may say less, but a session writes that only as it ends, in `leave`.
//! 3. Where any call of a session failed, `leave` writes the worst.
//!
//! So at each moment the byte, as programs see it, says at least what is unsynced, and `settle` need sync no
//! more than it says. No byte that says less can be written: `write_byte` requests it. Why each crash is safe:
//!
//! - A program that is killed leaves the byte as it was last written, which is at least what it left unsynced.
//!   The cache of the system still holds both the byte and the changes, so the next program sees both.
//! - After a power cut that cache is gone. What is read then is what the disk holds, so nothing is unsynced,
//!   and no byte can say too little. This is why the byte itself is never synced. An old byte that says too
//!   much costs syncs, and nothing else.
//!
//! What it doesn't cover: a program that changes the directory without the locks; a copy of the directory that is put in its
//! place with its lock file; and a second path to the directory, which has a lock file and a byte of its own.
ghost use Rattle.std.specs.Prelude.{◌≡◌, ◌≤◌, OnOk, OnErr};
ghost use Rattle.unix_host.specs.inside.Changes.{unsynced_left_by};
ghost use Rattle.unix_host.specs.declared.lock_files.LockPlace.{LockPlace};
ghost use Rattle.unix_host.specs.inside.LockByte.{amount_of, meaning_of};

use crate::changes::Changes;
use crate::lock_files::{BothLocks, LockFile, LockPlace, LockedFile, try_both};
use crate::paths::Paths;
use crate::unsynced::Unsynced;
use crate::waits::Waiting;
use host_calls::{EnterFault, HostFault};
use std::env::Env;
use std::fs::{File, Files, Permissions};
use std::os::unix::fs::{FileExt, PermissionsExt};
use std::time::Clock;

/// Locks that are held, until they are let go or the process ends.
#[derive(Drop)]
pub struct Lock {
    beside: LockedFile,
    within: LockedFile,
    known: Unsynced,
    ghost places: { beside.place ≡ LockPlace.Beside },
    ghost places_within: { within.place ≡ LockPlace.Within },
}

impl Lock {
    /// Takes both locks of a spool, and waits so for them. None where one of the paths names another file by then.
    pub fn take<R: Files<File = File> + Clock + Env + Eprint>(
        rt: &R,
        paths: &Paths,
        waiting: &mut Waiting,
    ) -> Result<Option<Lock>, EnterFault> {
        let mut beside = LockFile::open(rt, paths, LockPlace::Beside)?;
        let mut within = LockFile::open(rt, paths, LockPlace::Within)?;
        for _ in 0..u64::MAX {
            match try_both(beside, within)? {
                BothLocks::Held(beside, within) => {
                    let is_current = beside.is_named(rt, paths) && within.is_named(rt, paths);
                    return Ok(if is_current {
                        Some(Lock::of(beside, within))
                    } else {
                        None
                    });
                }
                BothLocks::Taken(one, other) => {
                    beside = one;
                    within = other;
                }
            }
            if !waiting.goes_on(rt, paths) {
                break;
            }
        }
        Err(EnterFault::Taken)
    }

    // The locks that are held, and what the byte says.
    fn of(beside: LockedFile, within: LockedFile) -> Lock
        requires beside { beside.place ≡ LockPlace.Beside }
        requires within { within.place ≡ LockPlace.Within }
    {
        let byte = byte_in(&beside.file);
        if byte.is_none() {
            // It is new, and the umask may have taken the rights of the owner too.
            let _ = beside.file.set_permissions(Permissions::from_mode(0o600));
        }
        Lock {
            beside,
            within,
            known: Unsynced::known_by(byte),
        }
    }

    /// What the byte says.
    pub fn known(&self) -> Unsynced
        ensures { result ≡ self.now.known }
    {
        self.known
    }

    /// Makes the byte say at least what may be unsynced.
    pub fn raise(&mut self, changes: &Changes) -> Result<(), HostFault>
        ensures covers { OnOk result (amount_of (unsynced_left_by changes.now) ≤ amount_of self.new.known) }
        ensures never_less { amount_of self.old.known ≤ amount_of self.new.known }
    {
        let left = changes.left();
        if !self.known.covers(left) {
            self.tell(left, changes)?;
        }
        Ok(())
    }

    /// Makes the byte say what may be unsynced, and lets the locks go.
    pub fn release(mut self, changes: &Changes) {
        let left = changes.left();
        if self.known != left {
            // A byte that can't be written still says what it said, and that is enough for each change that was
            // made. It is too little where another call of this session failed, whose mark is lost then.
            let _ = self.tell(left, changes);
        }
        let Lock {
            beside,
            within,
            known: _,
        } = self;
        // The directory first, so that whoever has the file next finds it free.
        drop(within.let_go());
        drop(beside.let_go());
    }

    fn tell(&mut self, known: Unsynced, changes: &Changes) -> Result<(), HostFault>
        requires { amount_of (unsynced_left_by changes.now) ≤ amount_of known }
        ensures ok { OnOk result (self.new.known ≡ known) }
        ensures err { OnErr result (self.new.known ≡ self.old.known) }
    {
        write_byte(&self.beside.file, known.byte(), changes)?;
        self.known = known;
        Ok(())
    }
}

// A byte that says less than what may be unsynced would have the next session sync too little.
fn write_byte(file: &File, byte: u8, changes: &Changes) -> Result<(), HostFault>
    requires { amount_of (unsynced_left_by changes.now) ≤ amount_of (meaning_of byte) }
{
    let _ = changes;
    file.write_all_at(&[byte], 0).map_err(|_| HostFault::Failed)
}

// The byte of the file, if it can be read.
fn byte_in(file: &File) -> Option<u8> {
    let mut byte = [0];
    file.read_exact_at(&mut byte, 0).ok()?;
    Some(byte[0])
}
