//! What the system refuses: to sync a device, to read a file as far as its length, and to start a child.
use crate::calls::Call::{Read, Run, Settle, Sync, SyncNames, Write};
use crate::spools::try_refused;
use std::test::Fail;

/// Makes a spool with one file and the directory of its outputs, in a directory of its own.
const MADE: &str = "mkdir -p \"$1/spool\" \"$1/spool.out\"; : >\"$1/spool/job\"";

// The file, the directory or the directory that it lies in can't be synced: each call that says it did fails then.
#[test]
fn a_sync_that_is_refused_is_a_fault(rt: HostRuntime) -> Result<(), Fail> {
    let calls = [Sync("job"), SyncNames, Settle];
    for &(device, spared, wanted) in &[
        ("none", 0, ";;;"),
        ("/spool/job", 0, "!;;!;"),
        // (the first open is that of its lock)
        ("/spool", 1, ";!;!;"),
        ("_refused", 0, ";;!;"),
    ] {
        try_refused(&rt, "refused", MADE, (device, spared), &calls, wanted)?;
    }
    Ok(())
}

// A file that was written to is synced by the same open, and by one of its own from then on.
#[test]
fn a_sync_after_a_write_opens_nothing(rt: HostRuntime) -> Result<(), Fail> {
    let calls = [Write("job", 0, "y"), Sync("job"), Sync("job")];
    try_refused(&rt, "kept_open", MADE, ("/spool/job", 1), &calls, ";;!;")
}

// A new directory would vanish with its name.
#[test]
fn a_new_directory_that_cannot_be_made_durable_is_a_fault(rt: HostRuntime) -> Result<(), Fail> {
    try_refused(&rt, "vanished", "mkdir \"$1\"", ("_vanished", 0), &[], "!")
}

/// Makes a spool with a file of seven bytes.
const SEVEN: &str = "mkdir -p \"$1/spool\"; echo exit 0 >\"$1/spool/job\"";

// The file has no bytes when it is read: from its start on that is a fault, and not after its length.
#[test]
fn a_file_that_ends_early_is_a_fault(rt: HostRuntime) -> Result<(), Fail> {
    let calls = [Read("job", 0, 100), Read("job", 7, 100)];
    try_refused(&rt, "short", SEVEN, ("/spool/job", 0), &calls, "!;;")
}

// The outside of these tests starts nothing.
#[test]
fn a_child_that_cannot_be_made_is_a_fault(rt: HostRuntime) -> Result<(), Fail> {
    try_refused(
        &rt,
        "childless",
        "mkdir \"$1\"",
        ("none", 0),
        &[Run("job")],
        "!;",
    )
}
