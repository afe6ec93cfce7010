//! What a session keeps of a listing, and by which paths it reaches the files.
use crate::calls::Call::{Create, Names, Read, Shell};
use crate::spools::{seen_moving, try_moving};
use crate::words::{clear, fresh_spool, line};
use std::env;
use std::test::Fail;

// Reads of a file, once the directory was listed and a stranger changed the file: within its first eight bytes, past them,
// and after a change of the session's own.
#[test]
fn first_bytes_are_kept_until_a_change(rt: HostRuntime) -> Result<(), Fail> {
    let calls = [
        Create("job", "0123456789"),
        Names,
        Shell("printf abcdefghij >\"$1/job\""),
        Read("job", 2, 4),
        Read("job", 2, 100),
        Create("other", ""),
        Read("job", 2, 4),
    ];
    let wanted = "; job;;2345;cdefghij;;cdef;";
    try_moving(&rt, "kept", ":", &calls, wanted)
}

/// Makes two plain files, one of them empty, and what is none.
const OTHERS: &str =
    "mkdir \"$1\" && cd \"$1\" && mkfifo fifo && mkdir folder && ln -s job link && echo hi >job && : >none";

#[test]
fn what_is_no_plain_file_is_not_opened(rt: HostRuntime) -> Result<(), Fail> {
    try_moving(&rt, "opened", OTHERS, &[Names], " job none;")
}

// The names in each of two sessions, and the current directory after each.
const TWICE: &str = "cd \"$1\" && for _ in 1 2; do echo \" job;$(pwd -P)\"; done";

// By its whole path the directory becomes the current directory; by a relative one it is the same directory the next
// time too.
#[test]
fn a_directory_is_found_again(rt: HostRuntime) -> Result<(), Fail> {
    let path = fresh_spool(&rt, "again")?;
    line(&rt, "mkdir \"$1\" && : >\"$1/job\"", path.as_str())?;
    let relative = path.as_str().strip_prefix("/tmp/").unwrap_or("");
    env::set_current_dir(&rt, "/tmp")?;
    for &(spool, directory) in &[(relative, "/tmp"), (path.as_str(), path.as_str())] {
        let seen = seen_moving(&rt, spool, &[&[Names], &[Names]], "pwd -P")?;
        let wanted = line(&rt, TWICE, directory)?;
        assert_eq!(rt; seen.as_slice(), wanted.as_slice(), "{spool}");
    }
    clear(&rt, path.as_str())
}
