//! Spools in memory, and sessions over them.
ghost use Rattle.std.specs.Prelude.{IfOk};
ghost use Rattle.host_calls.specs.Session.{IsOutside};
ghost use Rattle.memory_host.specs.Host.{memory_session};

use at_mail::mail_name;
use host_calls::Name;
use memory_host::{Files, MemoryHost, Plan};
use std::alloc::{AllocError, Global};
use std::process::Abort;

// The text of a job of `ann`, whose end is mailed in any case.
pub(crate) const JOB: &[u8] = b"#!/bin/sh\n# at user=ann mail=1\numask 0022\n";

// The line of its note.
pub(crate) const NOTED: &[u8] = b"N 00000001 a0000000101b968a0 1 ann\n";

pub(crate) fn name(rt: &impl Abort, bytes: &[u8]) -> Name {
    Name::of(bytes).expect(rt, "a name")
}

// A spool whose number `last` was drawn last, with the files of these names and bytes next to.
pub(crate) fn spool(
    rt: &impl Abort,
    alloc: Global,
    last: u32,
    others: &[(&[u8], &[u8])],
    plan: Plan,
) -> Result<MemoryHost, AllocError>
    ensures { IfOk result (λ host. IsOutside (memory_session host)) }
{
    let mut files = Files::new(alloc);
    let sequence = format!(in alloc; "{last:08x}\n")?;
    files.put(alloc, name(rt, b".SEQ"), sequence.as_bytes())?;
    for (other, bytes) in others {
        files.put(alloc, name(rt, other), bytes)?;
    }
    MemoryHost::make(alloc, files, plan)
}

pub(crate) fn notes_now(host: &MemoryHost) -> Option<&[u8]> {
    host.reading(&mail_name())
}
