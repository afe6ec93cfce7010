//! Many entries that are due in one minute, and many jobs.
ghost use Rattle.std.specs.Prelude.{IfOk};
ghost use Rattle.host_calls.specs.Session.{IsOutside};
ghost use Rattle.memory_host.specs.Host.{memory_session};

use crate::callers::ann;
use crate::outside::{FIRST, Left, NOW, left_by, left_by_ann, sessions_of, spool};
use host_calls::Name;
use memory_host::{Files, MemoryHost, Plan};
use std::alloc::{AllocError, Global};
use std::test::Fail;

const ONE: &[&str] = &["atcron", "-f", "crontab", "--turns", "1"];

const TWO: &[&str] = &["atcron", "-f", "crontab", "--turns", "2"];

const SCRIPT: &[u8] = b"#!/bin/sh\n# at user=ann mail=0\necho hi\n";

#[test]
fn twenty_entries_of_one_minute(rt: HostRuntime) -> Result<(), Fail> {
    let mut table = Vec::new(rt.alloc());
    for _ in 0..20 {
        table.extend_from_slice(b"* * * * * x\n")?;
    }
    let given = sessions_of(ONE, table.as_slice(), &[NOW, NOW]);
    let last = b"a0000001401b9ebfe".as_slice();
    let next = b"a0000001501b9ebfe".as_slice();
    for &(names, jobs) in &[((FIRST, last), (true, true)), ((last, next), (true, false))] {
        let left = left_by_ann(rt.alloc(), &given, None, names)?;
        assert_eq!(rt; left.code, 0);
        assert_eq!(rt; left.jobs, jobs);
    }
    Ok(())
}

// A spool in which so many jobs of `ann` are pending, with the numbers from 1 on.
fn crowd(alloc: Global, count: u32) -> Result<MemoryHost, AllocError>
    ensures { IfOk result (λ host. IsOutside (memory_session host)) }
{
    let mut files = Files::new(alloc);
    let last = format!(in alloc; "{count:08x}\n")?;
    put(alloc, &mut files, b".SEQ", last.as_bytes())?;
    for number in 1..=count {
        let name = format!(in alloc; "a{number:08x}01b968a0")?;
        put(alloc, &mut files, name.as_bytes(), SCRIPT)?;
    }
    MemoryHost::make(alloc, files, Plan::quiet(alloc))
}

fn put(alloc: Global, files: &mut Files, name: &[u8], bytes: &[u8]) -> Result<(), AllocError> {
    if let Some(name) = Name::of(name) {
        files.put(alloc, name, bytes)?;
    }
    Ok(())
}

// Two sessions of the crontab over such a spool.
fn left_in_crowd(
    alloc: Global,
    crontab: &[u8],
    count: u32,
    names: (&[u8], &[u8]),
) -> Result<Left, AllocError> {
    let caller = ann(alloc)?;
    let host = crowd(alloc, count)?;
    let given = sessions_of(TWO, crontab, &[NOW, NOW]);
    left_by(alloc, &given, &caller, host, names)
}

// Of two jobs that are due either both are submitted or none: of a full queue, and where the numbers are used up.
#[test]
fn ten_thousand_jobs_and_one_more(rt: HostRuntime) -> Result<(), Fail> {
    let names: (&[u8], &[u8]) = (b"a0000270f01b9ebfe", b"a0000271001b9ebfe");
    let two = b"* * * * * one\n* * * * * two\n";
    let cases: [(u32, u64, &[u8], bool); 2] = [
        (9_998, 60, b"", true),
        (9_999, 1, b"atcron: queue full\natcron: queue full\n", false),
    ];
    for (count, rested, lines, fits) in cases {
        let left = left_in_crowd(rt.alloc(), two, count, names)?;
        assert_eq!(rt; left.code, 0);
        assert_eq!(rt; left.err.content(), lines);
        assert_eq!(rt; left.rested, rested);
        assert_eq!(rt; left.mark.is_some(), fits);
        assert_eq!(rt; left.jobs, (fits, fits));
    }
    Ok(())
}

fn left_with_last(alloc: Global, last: &[u8], names: (&[u8], &[u8])) -> Result<Left, AllocError> {
    let caller = ann(alloc)?;
    let host = spool(alloc, &[(b".SEQ", last)], Plan::quiet(alloc))?;
    let given = sessions_of(TWO, b"* * * * * one\n* * * * * two\n", &[NOW, NOW]);
    left_by(alloc, &given, &caller, host, names)
}

#[test]
fn the_last_numbers(rt: HostRuntime) -> Result<(), Fail> {
    let names: (&[u8], &[u8]) = (b"afffffffe01b9ebfe", b"affffffff01b9ebfe");
    let used_up = b"atcron: job numbers used up\natcron: job numbers used up\n";
    let cases: [(&[u8], u64, &[u8], bool); 2] = [
        (b"fffffffd\n", 60, b"", true),
        (b"fffffffe\n", 1, used_up, false),
    ];
    for (last, rested, lines, fits) in cases {
        let left = left_with_last(rt.alloc(), last, names)?;
        assert_eq!(rt; left.code, 0);
        assert_eq!(rt; left.err.content(), lines);
        assert_eq!(rt; left.rested, rested);
        assert_eq!(rt; left.mark.is_some(), fits);
        assert_eq!(rt; left.jobs, (fits, fits));
    }
    Ok(())
}
