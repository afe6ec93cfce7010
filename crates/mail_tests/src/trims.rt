//! Trims of the notes, over spools in memory.
ghost use Rattle.std.specs.Prelude.{IfOk};
ghost use Rattle.host_calls.specs.Session.{IsOutside};
ghost use Rattle.memory_host.specs.Host.{memory_session};

use crate::directories::{JOB, notes_now, spool};
use crate::program::{is_done, texts};
use at_mail::{notice_name, trim_program};
use memory_host::{MemoryHost, MemorySink, Plan};
use std::alloc::{AllocError, Global};
use std::process::Abort;
use std::test::Fail;

// Job 1 has ended, and its notice was sent; 2 was removed; 3 has ended, and waits for its notice; 4 lives; 5 lives, though
// its notice was sent.
const ENDS: &[u8] =
    b"+S00000001a-000000000067748580.\n+E00000001-x000000000000000000.\n+R00000002--000000000000000000.\n+S00000003a-000000000067748580.\n+E00000003-x000000000000000000.\n";

pub(crate) const BEFORE: &[u8] =
    b"N 00000001 a0000000101b968a0 1 ann\nN 00000002 a0000000201b968a0 1 ann\nS 00000001\nN 00000003 a0000000301b968a0 1 ann\nN 00000004 a0000000401b968a0 1 ann\nD 00000002\nN 00000005 a0000000501b968a0 1 ann\nS 00000005\n";

const AFTER: &[u8] =
    b"N 00000003 a0000000301b968a0 1 ann\nN 00000004 a0000000401b968a0 1 ann\nN 00000005 a0000000501b968a0 1 ann\nS 00000005\n";

pub(crate) const LEFT_OVER: &[u8] = b"left over";

// The spool of these jobs.
pub(crate) fn five_jobs(
    rt: &impl Abort,
    alloc: Global,
    notes: &[u8],
    plan: Plan,
) -> Result<MemoryHost, AllocError>
    ensures { IfOk result (λ host. IsOutside (memory_session host)) }
{
    let others = [
        (b".JRN".as_slice(), ENDS),
        (b".MAIL".as_slice(), notes),
        (b"mail.00000007".as_slice(), LEFT_OVER),
        (b"a0000000401b968a0".as_slice(), JOB),
        (b"a0000000501b968a0".as_slice(), JOB),
    ];
    spool(rt, alloc, 5, &others, plan)
}

// What the program answered.
#[derive(Drop)]
struct Trimmed {
    code: u8,
    err: MemorySink,
}

fn run_trim(alloc: Global, words: &[&str], host: &mut MemoryHost) -> Result<Trimmed, AllocError>
    requires { IsOutside (memory_session host.old) }
    ensures { IsOutside (memory_session host.new) }
{
    let texts = texts(alloc, words)?;
    let mut err = MemorySink::make(alloc, None);
    let status = trim_program(alloc, &texts, host, &mut err);
    Ok(Trimmed {
        code: status.code,
        err,
    })
}

// The words of a trim.
const TRIM: &[&str] = &["atpost", "--trim"];

// Makes a trim: whether it was done, with nothing to say.
fn trims(alloc: Global, host: &mut MemoryHost) -> Result<bool, AllocError>
    requires { IsOutside (memory_session host.old) }
    ensures { IsOutside (memory_session host.new) }
{
    let trimmed = run_trim(alloc, TRIM, host)?;
    let is_silent = trimmed.code == 0 && trimmed.err.content().is_empty();
    drop(trimmed);
    Ok(is_silent)
}

// Whether a trim over these notes leaves those, starts nothing, and removes no other file.
fn trim_leaves(
    rt: &impl Abort,
    alloc: Global,
    notes: &[u8],
    left: &[u8],
) -> Result<bool, AllocError> {
    let mut host = five_jobs(rt, alloc, notes, Plan::quiet(alloc))?;
    let is_done = trims(alloc, &mut host)?;
    let is_left = notes_now(&host) == Some(left);
    let is_alone = host.reading(&notice_name(7)) == Some(LEFT_OVER) && host.handed().len() == 0;
    drop(host);
    Ok(is_done && is_left && is_alone)
}

// The notes of job 1 alone.
const JOB_1: &[u8] = b"N 00000001 a0000000101b968a0 1 ann\nS 00000001\n";

#[test]
fn notes_of_jobs_that_are_done_are_dropped(rt: HostRuntime) -> Result<(), Fail> {
    let cases: [(&[u8], &[u8]); 4] = [(BEFORE, AFTER), (AFTER, AFTER), (b"", b""), (JOB_1, b"")];
    for (notes, left) in cases {
        let is_left = trim_leaves(&rt, rt.alloc(), notes, left)?;
        assert!(rt; is_left, "{notes:?}");
    }
    Ok(())
}

#[test]
fn a_spool_without_notes_gets_none(rt: HostRuntime) -> Result<(), Fail> {
    let alloc = rt.alloc();
    let others = [(b"a0000000101b968a0".as_slice(), JOB)];
    let mut host = spool(&rt, alloc, 1, &others, Plan::quiet(alloc))?;
    let is_done = trims(alloc, &mut host)?;
    assert!(rt; is_done);
    assert_eq!(rt; notes_now(&host), None);
    drop(host);
    Ok(())
}

// Whether a trim that a call of this number and each later one cut off leaves the notes of before or those of after it, and
// two sessions after a reboot with the pick send the one notice that waits, once.
fn is_cut_off(rt: &impl Abort, alloc: Global, fuse: u64, pick: u64) -> Result<bool, AllocError> {
    let mut plan = Plan::quiet(alloc);
    plan.fuse = Some(fuse);
    let mut host = five_jobs(rt, alloc, BEFORE, plan)?;
    let is_right = is_cut_on(alloc, pick, &mut host);
    drop(host);
    is_right
}

fn is_cut_on(alloc: Global, pick: u64, host: &mut MemoryHost) -> Result<bool, AllocError>
    requires { IsOutside (memory_session host.old) }
{
    let was_done = trims(alloc, host)?;
    host.reboot(alloc, pick, None)?;
    let is_trimmed = notes_now(host) == Some(AFTER);
    let is_either = is_trimmed || (!was_done && notes_now(host) == Some(BEFORE));
    let is_alone = host.reading(&notice_name(7)) == Some(LEFT_OVER);
    let first = one_is_sent(alloc, host)?;
    let second = one_is_sent(alloc, host)?;
    Ok(is_either && is_alone && first && second)
}

// Whether a session is done, after which the notice of job 3 alone was sent.
fn one_is_sent(alloc: Global, host: &mut MemoryHost) -> Result<bool, AllocError>
    requires { IsOutside (memory_session host.old) }
    ensures { IsOutside (memory_session host.new) }
{
    let is_done = is_done(alloc, host)?;
    let handed = host.handed();
    let is_one = handed.len() == 1 && handed[0].number == 3;
    let is_noted = notes_now(host).is_some_and(|notes| notes.ends_with(b"S 00000003\n"));
    Ok(is_done && is_one && is_noted)
}

#[test]
fn a_trim_is_cut_off_at_each_call(rt: HostRuntime) -> Result<(), Fail> {
    for fuse in 0..30 {
        for &pick in &[0, 1, u64::MAX] {
            let is_right = is_cut_off(&rt, rt.alloc(), fuse, pick)?;
            assert!(rt; is_right, "fuse {fuse}, pick {pick}");
        }
    }
    Ok(())
}

// Words, notes and whether the spool is taken, and the status and the line by which the trim is refused.
type Refusal = (
    &'static [&'static str],
    &'static [u8],
    bool,
    u8,
    &'static [u8],
);

const USAGE: &[u8] = b"atpost: usage\n";

const REFUSALS: [Refusal; 8] = [
    (TRIM, BEFORE, true, 5, b"atpost: spool busy\n"),
    (
        TRIM,
        b"S 00000001\n",
        false,
        7,
        b"atpost: .MAIL damaged at 0\n",
    ),
    (
        TRIM,
        b"N 00000004 a0000000401b968a0 1 ann\nn",
        false,
        7,
        b"atpost: .MAIL damaged at 35\n",
    ),
    (&[], BEFORE, false, 1, USAGE),
    (&["atpost"], BEFORE, false, 1, USAGE),
    (&["atpost", "--trim", "--trim"], BEFORE, false, 1, USAGE),
    (&["atpost", "--trim", "now"], BEFORE, false, 1, USAGE),
    (
        &["atpost", "--trim", "--send", "/bin/true"],
        BEFORE,
        false,
        1,
        USAGE,
    ),
];

// Whether it is refused so, and changes nothing. Where the words are refused the spool is not entered.
fn is_refused(rt: &impl Abort, alloc: Global, refusal: &Refusal) -> Result<bool, Fail> {
    let (words, notes, is_taken, code, line) = *refusal;
    let mut plan = Plan::quiet(alloc);
    if is_taken {
        plan.taken.push(alloc, 0)?;
    }
    let mut host = five_jobs(rt, alloc, notes, plan)?;
    let trimmed = run_trim(alloc, words, &mut host)?;
    let is_so = trimmed.code == code && trimmed.err.content() == line;
    drop(trimmed);
    let is_apart = notes_now(&host) == Some(notes) && (code != 1 || host.calls() == 0);
    drop(host);
    Ok(is_so && is_apart)
}

#[test]
fn trims_that_are_refused(rt: HostRuntime) -> Result<(), Fail> {
    for refusal in &REFUSALS {
        let is_refused = is_refused(&rt, rt.alloc(), refusal)?;
        assert!(rt; is_refused, "{}", refusal.3);
    }
    Ok(())
}
