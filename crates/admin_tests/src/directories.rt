//! What the tests are written in: directories in memory, and calls of the checker.
ghost use Rattle.std.specs.Prelude.{IfOk};
ghost use Rattle.host_calls.specs.Session.{IsOutside};
ghost use Rattle.memory_host.specs.Host.{memory_session};

use host_calls::Name;
use memory_host::{Files, MemoryHost, MemorySink, Plan};
use spool_check::check_program;
use std::alloc::{AllocError, Global};
use std::test::Fail;

/// The script of a job of ann.
pub const JOB: &[u8] = b"#!/bin/sh\n# at user=ann mail=0\necho hi\n";

pub fn named(name: &str) -> Result<Name, Fail> {
    Ok(Name::of(name.as_bytes()).ok_or("a name")?)
}

// The files of a directory, by their names.
fn files(alloc: Global, entries: &[(&str, &[u8])]) -> Result<Files, Fail> {
    let mut files = Files::new(alloc);
    for (name, bytes) in entries {
        files.put(alloc, named(name)?, bytes)?;
    }
    Ok(files)
}

/// A directory of these files, where no call gets through from the fuse on.
pub fn directory(
    alloc: Global,
    entries: &[(&str, &[u8])],
    fuse: Option<u64>,
) -> Result<MemoryHost, Fail>
    ensures { IfOk result (λ host. IsOutside (memory_session host)) }
{
    let mut plan = Plan::quiet(alloc);
    plan.fuse = fuse;
    Ok(MemoryHost::make(alloc, files(alloc, entries)?, plan)?)
}

/// The words of a command line.
pub fn texts(alloc: Global, words: &[&str]) -> Result<Vec<String>, AllocError> {
    let mut texts = Vec::new(alloc);
    for word in words {
        texts.push(String::from_str(alloc, word)?)?;
    }
    Ok(texts)
}

/// The status of a call of the checker with these words.
pub fn code_of(
    alloc: Global,
    words: &[&str],
    from: &mut MemoryHost,
    to: &mut MemoryHost,
) -> Result<u8, AllocError>
    requires from { IsOutside (memory_session from.old) }
    requires to { IsOutside (memory_session to.old) }
    ensures from { IsOutside (memory_session from.new) }
    ensures to { IsOutside (memory_session to.new) }
{
    let texts = texts(alloc, words)?;
    let mut out = MemorySink::make(alloc, None);
    let mut err = MemorySink::make(alloc, None);
    Ok(check_program(alloc, &texts, from, to, &mut out, &mut err).code)
}
