//! How little a recovery reads of a job's file: its header alone, however long the job is.
use crate::directories::session;
use crate::noting_host::NotingHost;
use spool_store::Store;
use std::alloc::Global;
use std::test::Fail;

const HEADER: &[u8] = b"#!/bin/sh\n# at user=ann mail=0\n";

// So many bytes of commands come after the header.
const COMMANDS: usize = 1_048_576;

// How often the file of job 1 is read in a recovery, and how many bytes one read requests at most.
fn reads_of_a_long_job(alloc: Global) -> Result<(u32, usize), Fail> {
    let mut script = Vec::with_capacity(alloc, HEADER.len() + COMMANDS)?;
    script.extend_from_slice(HEADER)?;
    script.resize(HEADER.len() + COMMANDS, b'x')?;
    let files = [
        (".SEQ", b"00001\n".as_slice()),
        ("a0000101b968a0", script.as_slice()),
    ];
    let mut noting = NotingHost {
        host: session(alloc, &files)?,
        reads: 0,
        most: 0,
    };
    Store::recover(alloc, &mut noting)?;
    Ok((noting.reads, noting.most))
}

#[test]
fn a_recovery_reads_headers_alone(rt: HostRuntime) -> Result<(), Fail> {
    assert_eq!(rt; reads_of_a_long_job(rt.alloc())?, (1, 60));
    Ok(())
}
