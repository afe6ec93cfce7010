//! Sessions of the program over a spool in memory: as many records as there may be, and a crash.
ghost use Rattle.std.specs.Prelude.{IfOk};
ghost use Rattle.host_calls.specs.Session.{IsOutside};
ghost use Rattle.memory_host.specs.Host.{memory_session};

use crate::directories::{named, texts};
use at_account::{account_name, account_program};
use memory_host::{Files, MemoryHost, MemorySink, Plan};
use std::alloc::{AllocError, Global};
use std::test::Fail;

// The text of a job of `ann`.
const JOB: &[u8] = b"#!/bin/sh\n# at user=ann mail=0\numask 0022\n";

// What a session answered.
#[derive(Drop)]
struct Answered {
    code: u8,
    out: MemorySink,
    err: MemorySink,
}

impl Answered {
    // Whether it answered this, and nothing else.
    fn is(&self, code: u8, out: &[u8], err: &[u8]) -> bool {
        self.code == code && self.out.content() == out && self.err.content() == err
    }
}

// The files of a spool whose number `last` was drawn last, with a pending job of that number, and this file of accounts.
fn files(alloc: Global, last: u32, accounts: &[u8]) -> Result<Files, Fail> {
    let mut files = Files::new(alloc);
    let sequence = format!(in alloc; "{last:08x}\n")?;
    files.put(alloc, named(".SEQ")?, sequence.as_bytes())?;
    let job = format!(in alloc; "a{last:08x}01b968a0")?;
    files.put(alloc, named(job.as_str())?, JOB)?;
    files.put(alloc, account_name(), accounts)?;
    Ok(files)
}

// The spool of these files, where no call gets through from the fuse on.
fn spool(alloc: Global, last: u32, accounts: &[u8], fuse: Option<u64>) -> Result<MemoryHost, Fail>
    ensures { IfOk result (λ host. IsOutside (memory_session host)) }
{
    let mut plan = Plan::quiet(alloc);
    plan.fuse = fuse;
    Ok(MemoryHost::make(alloc, files(alloc, last, accounts)?, plan)?)
}

fn session(alloc: Global, words: &[&str], host: &mut MemoryHost) -> Result<Answered, AllocError>
    requires { IsOutside (memory_session host.old) }
    ensures { IsOutside (memory_session host.new) }
{
    let texts = texts(alloc, words)?;
    let mut out = MemorySink::make(alloc, None);
    let mut err = MemorySink::make(alloc, None);
    let status = account_program(alloc, &texts, host, &mut out, &mut err);
    Ok(Answered {
        code: status.code,
        out,
        err,
    })
}

// So many records: of jobs that were seen and removed, the first of them also started if the count is odd.
fn records(alloc: Global, count: u32) -> Result<Vec<u8>, AllocError> {
    let mut text = Vec::new(alloc);
    text.extend_from_slice(b"A 00000001 a ann\n")?;
    if count % 2 == 1 {
        text.extend_from_slice(b"S 00000001\nF 00000001\n")?;
    } else {
        text.extend_from_slice(b"R 00000001\n")?;
    }
    for number in 2..count / 2 + 1 {
        let lines = format!(in alloc; "A {number:08x} a ann\nR {number:08x}\n")?;
        text.extend_from_slice(lines.as_bytes())?;
    }
    Ok(text)
}

// A session over so many records, with a job that none of them names: whether it is refused with nothing shown and the file
// as it was, and how long the file is then.
fn beside(alloc: Global, count: u32) -> Result<(bool, Option<usize>), Fail> {
    let accounts = records(alloc, count)?;
    let mut host = spool(alloc, 50_002, accounts.as_slice(), None)?;
    let answered = session(alloc, &["ataccount", "--show"], &mut host);
    let file = host.reading(&account_name());
    let is_same = file == Some(accounts.as_slice());
    let length = file.map(|file| file.len());
    drop(host);
    let is_refused = answered?.is(1, b"", b"ataccount: accounts full\n");
    Ok((is_refused && is_same, length))
}

// A pair takes 28 bytes, the three of the first job 39, and the new one 17.
#[test]
fn the_last_record_that_has_room(rt: HostRuntime) -> Result<(), Fail> {
    for &(count, is_refused, length) in &[
        (99_999, false, 39 + 49_998 * 28 + 17),
        (100_000, true, 50_000 * 28),
        (100_001, true, 39 + 49_999 * 28),
    ] {
        let seen = beside(rt.alloc(), count)?;
        assert_eq!(rt; seen, (is_refused, Some(length)), "{count}");
    }
    Ok(())
}

const OLD: &[u8] = b"A 00000003 b bob\nS 00000003\n";

const NEW: &[u8] = b"A 00000003 b bob\nS 00000003\nL 00000003\nA 00000007 a ann\n";

const SHOWN: &[u8] = b"ann a 1 0 0 0 0 0 0\nbob b 1 1 0 0 0 0 1\n";

// Whether the file of accounts is the new one; it is to be that or the old one.
fn is_new(host: &MemoryHost) -> Result<bool, Fail> {
    let bytes = host.reading(&account_name()).ok_or("a file of accounts")?;
    let is_new = bytes == NEW;
    (is_new || bytes == OLD).then_some(()).ok_or("other bytes")?;
    Ok(is_new)
}

// A session, a reboot with the pick, and the next session, which is to show both jobs: whether the first is done, and whether
// the file is the new one after the reboot.
fn over_a_reboot(alloc: Global, pick: u64, host: &mut MemoryHost) -> Result<(bool, bool), Fail>
    requires { IsOutside (memory_session host.old) }
{
    let is_done = session(alloc, &["ataccount"], host)?.code == 0;
    host.reboot(alloc, pick, None)?;
    let is_new = is_new(host)?;
    let next = session(alloc, &["ataccount", "--show"], host)?;
    next.is(0, SHOWN, b"").then_some(()).ok_or("both jobs")?;
    Ok((is_done, is_new))
}

// The same, where no call of the first session gets through from the fuse on.
fn cut_off(alloc: Global, fuse: u64, pick: u64) -> Result<(bool, bool), Fail> {
    let mut host = spool(alloc, 7, OLD, Some(fuse))?;
    over_a_reboot(alloc, pick, &mut host)
}

// A session has fifteen host calls.
#[test]
fn a_file_of_accounts_is_the_old_one_or_the_new_one(rt: HostRuntime) -> Result<(), Fail> {
    for fuse in 1..17 {
        for &pick in &[0, 1, u64::MAX] {
            let (is_done, is_new) = cut_off(rt.alloc(), fuse, pick)?;
            let is_right = is_done == (fuse == 16) && (is_new || !is_done);
            assert!(rt; is_right, "fuse {fuse}, pick {pick}");
        }
    }
    Ok(())
}
