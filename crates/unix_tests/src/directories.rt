//! The calls on a directory, each seen through another call.
use crate::calls::Call::{
    Create, Length, Names, Read, Remove, Rename, Settle, Sync, SyncNames, Write,
};
use crate::spools::try_spool;
use crate::words::{begin, clear, fresh_spool, line};
use host_calls::Text;
use std::test::Fail;
use unix_host::UnixHost;

// A file is made, read, written over, read again in part and after its end, and synced.
#[test]
fn what_is_made_is_read(rt: HostRuntime) -> Result<(), Fail> {
    let calls = [
        Create("a0000101b968a0", "#!/bin/sh\necho hi\n"),
        Length("a0000101b968a0"),
        Read("a0000101b968a0", 0, 100),
        Write("a0000101b968a0", 15, "yo"),
        Read("a0000101b968a0", 10, 7),
        Read("a0000101b968a0", 18, 7),
        Sync("a0000101b968a0"),
        SyncNames,
    ];
    let wanted = ";18;#!/bin/sh\necho hi\n;;echo yo;;;;";
    try_spool(&rt, "made", ":", &[&calls], ":", wanted)
}

// Two files are made, one takes the other's name, and it is removed.
#[test]
fn names_are_moved_and_removed(rt: HostRuntime) -> Result<(), Fail> {
    let calls = [
        Settle,
        Create(".TMP", "1\n"),
        Create(".SEQ", "0\n"),
        Names,
        Rename(".TMP", ".SEQ"),
        Names,
        Read(".SEQ", 0, 9),
        Remove(".SEQ"),
        Names,
    ];
    let wanted = ";;; .SEQ .TMP;; .SEQ;1\n;;;";
    try_spool(&rt, "names", ":", &[&calls], ":", wanted)
}

/// Makes one plain file with a name, and what is none.
const OTHERS: &str =
    "mkdir \"$1\" && cd \"$1\" && mkfifo fifo && mkdir folder && ln -s job link && \
    touch job 'a b' \"$(printf 'a\\377')\"";

// Each call on the FIFO fails. No reader and no writer of it ever comes.
#[test]
fn what_is_no_plain_file_is_left_out(rt: HostRuntime) -> Result<(), Fail> {
    let calls = [
        Names,
        Length("fifo"),
        Read("fifo", 0, 9),
        Write("fifo", 0, "x"),
        Sync("fifo"),
        Settle,
    ];
    try_spool(&rt, "plain", OTHERS, &[&calls], ":", " job;!;!;!;!;;")
}

// Each call fails that requests what isn't there, or makes what is.
#[test]
fn what_cannot_be_done_fails(rt: HostRuntime) -> Result<(), Fail> {
    let calls = [
        Create("job", ""),
        Create("job", ""),
        Rename("none", "job"),
        Remove("none"),
    ];
    try_spool(&rt, "fails", ":", &[&calls], ":", ";!;!;!;")
}

#[test]
fn a_directory_that_cannot_be_made_is_a_fault(rt: HostRuntime) -> Result<(), Fail> {
    try_spool(&rt, "file", "touch \"$1\"", &[&[]], ":", "!")
}

// Whether a session of the host of a directory that is to be there begins, and how many files lie at its path or next to
// it.
fn begins_where_it_is(rt: &HostRuntime, path: &str) -> Result<(bool, Vec<u8>), Fail> {
    let spool = Text::of(rt.alloc(), path)?;
    let mut host = UnixHost::existing(rt.clone()?, rt.alloc(), spool)?;
    let begins = begin(rt.alloc(), &mut host).is_ok();
    drop(host);
    let count = line(rt, "ls -d \"$1\"* 2>/dev/null | wc -l", path)?;
    Ok((begins, count))
}

// Where it is absent, nothing is made; where it exists, its lock alone.
#[test]
fn a_directory_that_is_to_be_there_is_not_made(rt: HostRuntime) -> Result<(), Fail> {
    let path = fresh_spool(&rt, "absent")?;
    for &(made, begun, beside) in &[(":", false, "0\n"), ("mkdir \"$1\"", true, "2\n")] {
        line(&rt, made, path.as_str())?;
        let (begins, count) = begins_where_it_is(&rt, path.as_str())?;
        assert!(rt;
            begins == begun && count.as_slice() == beside.as_bytes(),
            "{made}"
        );
    }
    clear(&rt, path.as_str())
}
