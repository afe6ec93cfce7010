//! The byte of the lock, and who may look.
ghost use Rattle.std.specs.Prelude.{◌≡◌, false};
ghost use Rattle.host_calls.specs.Session.{IsOutside};

use crate::calls::Call::{Create, Names, Remove, Rename, Settle, Sync, SyncNames, Write};
use crate::calls::{Call, answers, session};
use crate::spools::{seen_at, try_spool};
use crate::words::{begin, clear, fresh_spool, host_of};
use host_calls::{Host, HostFault};
use std::test::Fail;

/// Prints what the lock file holds.
const BYTE: &str = "cat \"$1.lock\"";

// After each of these sessions, each of which settles first.
#[test]
fn the_byte_says_what_is_unsynced(rt: HostRuntime) -> Result<(), Fail> {
    let all: [&[Call]; 7] = [
        &[Settle],
        &[Settle, Create("job", "x"), Sync("job")],
        &[Settle, Rename("job", "other")],
        &[Settle, Rename("other", "job"), SyncNames],
        &[Settle, Write("job", 0, "y")],
        &[Settle],
        &[Settle, Remove("other")],
    ];
    let wanted = ";c;;;n;;n;;;c;;a;c;!;a";
    try_spool(&rt, "byte", ":", &all, BYTE, wanted)
}

// Each row's session leaves what it does only where the byte before it says so: none and `a` the worst, which the sync of
// a new file does not end; `n` names alone, which a sync of the names ends; `c` nothing, so that a move raises it.
#[test]
fn the_byte_says_no_less_without_a_settle(rt: HostRuntime) -> Result<(), Fail> {
    let made: [Call; 2] = [Create("one", "x"), Sync("one")];
    let rows: [(&str, &[Call], &str); 4] = [
        (": >\"$1.lock\"", &made, ";;"),
        (
            "mkdir \"$1\" \"$1.out\"; printf a >\"$1.lock\"",
            &made,
            ";;a",
        ),
        (
            "mkdir \"$1\" \"$1.out\"; printf n >\"$1.lock\"",
            &[SyncNames],
            ";c",
        ),
        (
            "mkdir \"$1\" \"$1.out\"; : >\"$1/two\"; printf c >\"$1.lock\"",
            &[Rename("two", "other")],
            ";n",
        ),
    ];
    for (before, calls, wanted) in rows {
        try_spool(&rt, "told", before, &[calls], BYTE, wanted)?;
    }
    Ok(())
}

// A writer that is killed within its second session.
fn writes<H: Host>(rt: &HostRuntime, path: &str, host: &mut H) -> Result<(), HostFault>
    requires unknown { H.tells ≡ false }
    requires outside { IsOutside (H.session host.old) }
{
    session(rt, path, host, &[Settle])?;
    begin(rt.alloc(), host)?;
    answers(rt, path, host, &[Create("job", "x")])?;
    Ok(())
}

// Leaves what a killed writer does.
fn leave_a_writer(rt: &HostRuntime, path: &str) -> Result<(), Fail> {
    let mut host = host_of(rt, path)?;
    let written = writes(rt, path, &mut host);
    drop(host);
    Ok(written?)
}

// The byte after a session that settles nothing, and then after one that settles.
#[test]
fn what_a_killed_writer_left_is_known_until_it_is_settled(rt: HostRuntime) -> Result<(), Fail> {
    let path = fresh_spool(&rt, "killed")?;
    leave_a_writer(&rt, path.as_str())?;
    let seen = seen_at(&rt, path.as_str(), &[&[Names], &[Settle]], BYTE)?;
    clear(&rt, path.as_str())?;
    assert_eq!(rt; seen.as_slice(), b" job;a;c".as_slice());
    Ok(())
}

#[test]
fn only_the_owner_may_look(rt: HostRuntime) -> Result<(), Fail> {
    let calls = [Settle, Create("job", "x"), Sync("job")];
    let modes = "stat -c %a \"$1\" \"$1.out\" \"$1.lock\" \"$1/job\"";
    let wanted = ";;;700\n700\n600\n600\n";
    try_spool(&rt, "modes", ":", &[&calls], modes, wanted)
}
