//! A salvage of many jobs.
use crate::directories::{JOB, code_of, directory, named};
use host_calls::Name;
use memory_host::{Files, MemoryHost, Plan};
use std::alloc::Global;
use std::test::Fail;

// How many jobs the directory has.
const JOBS: u32 = 300;

// The name of the file of one of them.
fn name_of(alloc: Global, number: u32) -> Result<Name, Fail> {
    let name = format!(in alloc; "a{number:08x}01b968a0")?;
    named(name.as_str())
}

// Adds the files of all of them.
fn put_all(alloc: Global, files: &mut Files) -> Result<(), Fail> {
    for number in 1..JOBS + 1 {
        files.put(alloc, name_of(alloc, number)?, JOB)?;
    }
    Ok(())
}

// The files of a spool in which all of them wait.
fn spool(alloc: Global) -> Result<Files, Fail> {
    let mut files = Files::new(alloc);
    files.put(alloc, named(".SEQ")?, b"0000012c\n")?;
    put_all(alloc, &mut files)?;
    Ok(files)
}

// Whether the directory has each of them, with its bytes.
fn has_all(alloc: Global, host: &MemoryHost) -> Result<bool, Fail> {
    for number in 1..JOBS + 1 {
        if host.reading(&name_of(alloc, number)?) != Some(JOB) {
            return Ok(false);
        }
    }
    Ok(true)
}

// The status of a salvage of them, and whether the target has each.
fn saved(alloc: Global) -> Result<(u8, bool), Fail> {
    let mut from = MemoryHost::make(alloc, spool(alloc)?, Plan::quiet(alloc))?;
    let mut to = directory(alloc, &[], None)?;
    let code = code_of(alloc, &["atcheck", "--salvage"], &mut from, &mut to)?;
    drop(from);
    Ok((code, has_all(alloc, &to)?))
}

#[test]
fn three_hundred_jobs_are_saved(rt: HostRuntime) -> Result<(), Fail> {
    let seen = saved(rt.alloc())?;
    assert_eq!(rt; seen, (0, true));
    Ok(())
}
