//! A spool in memory, and the program over it.
ghost use Rattle.std.specs.Prelude.{◌<◌, IfOk};
ghost use Rattle.host_calls.specs.Session.{IsOutside};
ghost use Rattle.memory_host.specs.Host.{memory_session};

use crate::callers::ann;
use cron_session::mark_name;
use cron_turn::cron_program;
use host_calls::{Bytes, Name};
use memory_host::{Files, ListReadings, MemoryHost, MemoryInputs, MemorySink, Plan};
use std::alloc::{AllocError, Global};
use tool_output::Caller;

/// Fri Jan 24 2025, 08:30:00 UTC.
pub const NOW: i64 = 1_737_707_400;

/// The name of a job's file of number 1, at the minute of that.
pub const FIRST: &[u8] = b"a0000000101b9ebfe";

/// And of number 2.
pub const SECOND: &[u8] = b"a0000000201b9ebfe";

/// What the program answered.
#[derive(Drop)]
pub struct Answered {
    pub code: u8,
    pub err: MemorySink,
    pub rested: u64,
}

/// What the program answered and left: the text of the mark, and whether there are two jobs.
#[derive(Drop)]
pub struct Left {
    pub code: u8,
    pub err: MemorySink,
    pub rested: u64,
    pub mark: Option<Bytes>,
    pub jobs: (bool, bool),
}

/// What the program is given: its words, its crontab, the seconds that the clock answers, of which the last repeats, and
/// which put fails.
#[derive(Clone, Copy)]
pub struct Given<'a> {
    pub words: &'a [&'a str],
    pub crontab: Option<&'a [u8]>,
    pub nows: &'a [i64; 2],
    pub failing_err: Option<u64>,
}

/// What the program is given, of these parts.
pub fn given_of<'a>(
    words: &'a [&'a str],
    crontab: Option<&'a [u8]>,
    nows: &'a [i64; 2],
    failing_err: Option<u64>,
) -> Given<'a> {
    Given {
        words,
        crontab,
        nows,
        failing_err,
    }
}

/// Sessions of the crontab, of which no put fails.
pub fn sessions_of<'a>(words: &'a [&'a str], crontab: &'a [u8], nows: &'a [i64; 2]) -> Given<'a> {
    given_of(words, Some(crontab), nows, None)
}

/// A spool with these files, given by their names.
pub fn spool(alloc: Global, others: &[(&[u8], &[u8])], plan: Plan) -> Result<MemoryHost, AllocError>
    ensures { IfOk result (λ host. IsOutside (memory_session host)) }
{
    let mut files = Files::new(alloc);
    for (name, bytes) in others {
        if let Some(name) = Name::of(name) {
            files.put(alloc, name, bytes)?;
        }
    }
    MemoryHost::make(alloc, files, plan)
}

/// Runs the program.
pub fn run(
    alloc: Global,
    given: &Given<'_>,
    caller: &Caller,
    host: &mut MemoryHost,
) -> Result<Answered, AllocError>
    requires umask { caller.now.context.umask < 512 }
    requires outside { IsOutside (memory_session host.old) }
    ensures { IsOutside (memory_session host.new) }
{
    let mut texts = Vec::new(alloc);
    for word in given.words {
        texts.push(String::from_str(alloc, word)?)?;
    }
    let [now, then] = *given.nows;
    let mut readings = ListReadings::make(alloc, &[now, then], &[None])?;
    let mut inputs = MemoryInputs::make(alloc, b"", given.crontab, false)?;
    let mut err = MemorySink::make(alloc, given.failing_err);
    let status = cron_program(
        alloc,
        &texts,
        caller,
        host,
        &mut readings,
        &mut inputs,
        &mut err,
    );
    Ok(Answered {
        code: status.code,
        err,
        rested: readings.rested(),
    })
}

/// Runs the program over a spool with these files: what it answered, and what is left, of the jobs those with these names.
pub fn left_by(
    alloc: Global,
    given: &Given<'_>,
    caller: &Caller,
    host: MemoryHost,
    names: (&[u8], &[u8]),
) -> Result<Left, AllocError>
    requires umask { caller.now.context.umask < 512 }
    requires outside { IsOutside (memory_session host) }
{
    let mut host = host;
    let answered = run(alloc, given, caller, &mut host);
    let mark = mark_of(alloc, &host);
    let jobs = (has(&host, names.0), has(&host, names.1));
    drop(host);
    let Answered { code, err, rested } = answered?;
    Ok(Left {
        code,
        err,
        rested,
        mark: mark?,
        jobs,
    })
}

fn mark_of(alloc: Global, host: &MemoryHost) -> Result<Option<Bytes>, AllocError> {
    match host.reading(&mark_name()) {
        Some(bytes) => Ok(Some(Bytes::of(alloc, bytes)?)),
        None => Ok(None),
    }
}

/// The same of `ann`, over a spool with this mark or none.
pub fn left_by_ann(
    alloc: Global,
    given: &Given<'_>,
    mark: Option<&[u8]>,
    names: (&[u8], &[u8]),
) -> Result<Left, AllocError> {
    let caller = ann(alloc)?;
    let host = marked_spool(alloc, mark)?;
    left_by(alloc, given, &caller, host, names)
}

fn marked_spool(alloc: Global, mark: Option<&[u8]>) -> Result<MemoryHost, AllocError>
    ensures { IfOk result (λ host. IsOutside (memory_session host)) }
{
    match mark {
        Some(mark) => spool(alloc, &[(b".CRON", mark)], Plan::quiet(alloc)),
        None => spool(alloc, &[], Plan::quiet(alloc)),
    }
}

/// Whether there is a file of the name.
pub fn has(host: &MemoryHost, name: &[u8]) -> bool {
    match Name::of(name) {
        Some(name) => host.reading(&name).is_some(),
        None => false,
    }
}
