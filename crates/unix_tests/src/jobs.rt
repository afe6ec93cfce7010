//! Jobs that are started, and how they end.
use crate::calls::Call::{Create, Run};
use crate::spools::{seen_at, try_spool};
use crate::words::{clear, fresh_spool};
use std::test::Fail;

// What the job writes, and nothing else, is in its file.
const IN_ITS_FILE: &str =
    "(echo hi; echo '<>'; nice -n 2 nice) | cmp - \"$1.out/job\" && echo the same";

#[test]
fn what_a_job_writes_lands_in_its_file(rt: HostRuntime) -> Result<(), Fail> {
    let calls = [
        Create("job", "echo hi\ncat\necho \"<$HOME>\"\nnice\n"),
        Run("job"),
    ];
    let wanted = ";0 exit 0 exit 0;the same\n";
    try_spool(&rt, "hi", ":", &[&calls], IN_ITS_FILE, wanted)
}

// The place of its output is taken by a directory. The script makes a file in the spool, prints, and exits with 3.
const WITHOUT_OUTPUT: &str = "mkdir -p \"$1\" \"$1.out/job\"; \
    echo \"echo hi; echo ho >&2; : >'$1/ran'; exit 3\" >\"$1/job\"";

#[test]
fn a_job_without_an_output_runs(rt: HostRuntime) -> Result<(), Fail> {
    let left = "cd \"$1\"; echo *; ls \"$1.out/job\"";
    let wanted = "0 exit 3 exit 3;job ran\n";
    try_spool(
        &rt,
        "silent",
        WITHOUT_OUTPUT,
        &[&[Run("job")]],
        left,
        wanted,
    )
}

#[test]
fn endings_are_distinguished(rt: HostRuntime) -> Result<(), Fail> {
    let three = [Create("three", "exit 3\n"), Run("three")];
    let killed = [Create("killed", "kill -9 $$\n"), Run("killed")];
    let wanted = ";0 exit 3 exit 3;;1 signal 9 signal 9;";
    try_spool(&rt, "endings", ":", &[&three, &killed], ":", wanted)
}

// The shell starts all the same, and finds nothing to run.
#[test]
fn a_missing_script_ends_badly(rt: HostRuntime) -> Result<(), Fail> {
    let path = fresh_spool(&rt, "missing")?;
    let seen = seen_at(&rt, path.as_str(), &[&[Run("none")]], ":")?;
    clear(&rt, path.as_str())?;
    assert!(rt; seen.starts_with(b"0 exit ") && !seen.starts_with(b"0 exit 0"));
    Ok(())
}
