//! Spools in memory, and calls of the program over them.
ghost use Rattle.std.specs.Prelude.{◌<◌, IfOk};
ghost use Rattle.host_calls.specs.Session.{IsOutside};
ghost use Rattle.memory_host.specs.Host.{memory_session};

use at_stat::stat_program;
use civil_minute::Zone;
use host_calls::{Name, Text};
use job_script::{Context, Variables};
use memory_host::{Files, ListReadings, MemoryHost, MemorySink, Plan};
use std::alloc::{AllocError, Global};
use std::test::Fail;
use tool_output::Caller;

// The text of a job of `ann`.
const JOB_OF_ANN: &[u8] = b"#!/bin/sh\n# at user=ann mail=0\numask 0022\n";

// The text of a job of `bob`.
const JOB_OF_BOB: &[u8] = b"#!/bin/sh\n# at user=bob mail=0\numask 0022\n";

// Ten numbers were drawn: 1 was removed, 2 ended with status 0, 3 with 255, signal 9 ended 4, 5 was never started, 6 was
// interrupted, and 7 runs since half a minute after its minute.
const JOURNAL: &[u8] = b"+R00000001--000000000000000000.
+S00000002a-000000000067748580.
+E00000002-x000000000000000000.
+S00000003a-000000000067748580.
+E00000003-xff0000000000000000.
+S00000004a-000000000067748580.
+E00000004-s090000000000000000.
+S00000005a-000000000067748580.
+E00000005-n000000000000000000.
+S00000006a-000000000067748580.
+I00000006--000000000000000000.
+S00000007a-0000000000677485da.
";

// The numbers 8 and 9 wait, the second as a job of `bob`; nothing is known of 10.
const ENTRIES: [(&str, &[u8]); 6] = [
    (".SEQ", b"0000000a\n"),
    (".JRN", JOURNAL),
    ("a0000000701b968a0", JOB_OF_ANN),
    ("c0000000801b9689f", JOB_OF_ANN),
    ("a0000000901b968a0", JOB_OF_BOB),
    ("at.deny", b""),
];

/// A directory of these files, which fails as planned.
pub(crate) fn spool_directory(
    alloc: Global,
    entries: &[(&str, &[u8])],
    plan: Plan,
) -> Result<MemoryHost, Fail>
    ensures { IfOk result (λ host. IsOutside (memory_session host)) }
{
    let mut files = Files::new(alloc);
    for (name, bytes) in entries {
        files.put(alloc, Name::of(name.as_bytes()).ok_or("a name")?, bytes)?;
    }
    Ok(MemoryHost::make(alloc, files, plan)?)
}

/// The spool with a job in each state.
pub(crate) fn spool(alloc: Global, plan: Plan) -> Result<MemoryHost, Fail>
    ensures { IfOk result (λ host. IsOutside (memory_session host)) }
{
    spool_directory(alloc, &ENTRIES, plan)
}

/// The caller of this name, in UTC.
pub(crate) fn caller(alloc: Global, user: &str) -> Result<Caller, AllocError>
    ensures { IfOk result (λ caller. caller.context.umask < 512) }
{
    let context = Context {
        user: Text::of(alloc, user)?,
        directory: Text::of(alloc, "/")?,
        umask: 0o022,
        environment: Variables::new(alloc),
    };
    Ok(Caller {
        context,
        zone: Zone::Utc,
    })
}

/// These words as strings.
pub(crate) fn texts(alloc: Global, words: &[&str]) -> Result<Vec<String>, AllocError> {
    let mut texts = Vec::new(alloc);
    for word in words {
        texts.push(String::from_str(alloc, word)?)?;
    }
    Ok(texts)
}

/// What a call is to answer: its exit status, for how many seconds it rests, what it puts, and what it says.
#[derive(Clone, Copy)]
pub(crate) struct Expected {
    pub(crate) code: u8,
    pub(crate) rested: u64,
    pub(crate) out: &'static str,
    pub(crate) err: &'static str,
}

/// What a call answered: its exit status, for how many seconds it rested, and whether it put and said what it was to.
pub(crate) type Answered = (u8, u64, bool, bool);

/// What is expected, as the answer of a call.
pub(crate) fn answer_of(expected: &Expected) -> Answered {
    (expected.code, expected.rested, true, true)
}

/// A call of the program by this user, whose output fails at the put of this number.
pub(crate) fn call_by(
    alloc: Global,
    user: &str,
    words: &[&str],
    host: &mut MemoryHost,
    fails_at: Option<u64>,
    expected: &Expected,
) -> Result<Answered, AllocError>
    requires { IsOutside (memory_session host.old) }
    ensures { IsOutside (memory_session host.new) }
{
    let caller = caller(alloc, user)?;
    let texts = texts(alloc, words)?;
    let mut readings = ListReadings::make(alloc, &[0], &[None])?;
    let mut out = MemorySink::make(alloc, fails_at);
    let mut err = MemorySink::make(alloc, None);
    let status = stat_program(
        alloc,
        &texts,
        &caller,
        host,
        &mut readings,
        &mut out,
        &mut err,
    );
    Ok((
        status.code,
        readings.rested(),
        out.content() == expected.out.as_bytes(),
        err.content() == expected.err.as_bytes(),
    ))
}

/// A call by this user over the spool with a job in each state.
pub(crate) fn call(
    alloc: Global,
    user: &str,
    words: &[&str],
    expected: &Expected,
) -> Result<Answered, Fail> {
    let mut host = spool(alloc, Plan::quiet(alloc))?;
    Ok(call_by(alloc, user, words, &mut host, None, expected)?)
}
