//! Whether any process holds a lock of a file. The table is read in place of trying the lock: that could keep an atd from
//! it that begins at the same moment.
ghost use Rattle.std.specs.Prelude.{◌≡◌, IfOk, string_bytes};
ghost use Rattle.launcher.specs.Locks.{IsLockLookedUp, field_ending, ends_so, has_lock, is_lock_of};

use std::alloc::{AllocError, Global};
use system_calls::{FileRead, System};

// A table is shorter.
const LONGEST_TABLE: u64 = 67_108_864;

/// Whether the kernel's table of locks has one of the file of this inode. One that can't be read counts as if it had.
pub fn is_locked<S: System>(system: &mut S, alloc: Global, inode: u64) -> Result<bool, AllocError>
    ensures { IfOk result (IsLockLookedUp inode (S.trace system.old) (S.trace system.new)) }
{
    let ending = field_ending(alloc, inode)?;
    match system.read_file("/proc/locks", LONGEST_TABLE) {
        FileRead::Whole(table) => Ok(has_lock(table.as_slice(), ending.as_bytes())),
        _ => Ok(true),
    }
}

// How the field of the file of this inode ends.
fn field_ending(alloc: Global, inode: u64) -> Result<String, AllocError>
    ensures { IfOk result (λ ending. string_bytes ending ≡ field_ending inode) }
{
    format!(in alloc; ":{inode}")
}

fn has_lock(table: &[u8], ending: &[u8]) -> bool
    /// The table of locks has one on the file with this inode exactly if a field of a line ends with that inode.
    ensures { result ≡ has_lock table.now ending.now }
{
    table
        .split(|byte| *byte == b'\n')
        .any(|line| is_lock_of(line, ending))
}

fn is_lock_of(line: &[u8], ending: &[u8]) -> bool
    ensures { result ≡ is_lock_of line.now ending.now }
{
    line.split(|byte| *byte == b' ')
        .any(|field| ends_so(field, ending))
}

fn ends_so(field: &[u8], ending: &[u8]) -> bool
    ensures { result ≡ ends_so field.now ending.now }
{
    field.ends_with(ending)
}
