//! The outside in memory: a spool directory, a clock that stands, an input and two sinks.
ghost use Rattle.std.specs.Prelude.{◌≡◌, ◌∷◌, [], IfOk, None};
ghost use Rattle.host_calls.specs.Session.{IsOutside};
ghost use Rattle.memory_host.specs.Host.{memory_session};
ghost use Rattle.memory_host.specs.ListReadings.{readers_so_far};
ghost use Rattle.memory_host.specs.MemoryInputs.{contents_given};
ghost use Rattle.memory_host.specs.Inputs.{given_contents};
ghost use Rattle.memory_host.specs.Readings.{readings_spelling};

use crate::ann::ann;
use at_day::program;
use host_calls::Name;
use memory_host::{Files, ListReadings, MemoryHost, MemoryInputs, MemorySink, Plan};
use std::alloc::{AllocError, Global};

/// 2025-01-01 00:00:00 UTC.
pub const NOW: i64 = 1_735_689_600;

/// All that a command is handed.
#[derive(Drop)]
pub struct Outside {
    pub host: MemoryHost,
    pub readings: ListReadings,
    pub inputs: MemoryInputs,
    pub out: MemorySink,
    pub err: MemorySink,
}

/// An outside whose clock stands, whose standard input is this, and whose spool fails as planned.
pub fn made_in_memory(
    alloc: Global,
    now: i64,
    input: &[u8],
    plan: Plan,
) -> Result<Outside, AllocError>
    ensures outside { IfOk result (λ made. IsOutside (memory_session made.host)) }
    ensures clock { IfOk result (λ made.
        (readers_so_far made.readings).made_as ≡ readings_spelling (now ∷ []) (None ∷ [])) }
    ensures input { IfOk result (λ made. contents_given made.inputs ≡ given_contents input.now None) }
{
    Ok(Outside {
        host: spool(alloc, plan)?,
        readings: ListReadings::make(alloc, &[now], &[None])?,
        inputs: MemoryInputs::make(alloc, input, None, false)?,
        out: MemorySink::make(alloc, None),
        err: MemorySink::make(alloc, None),
    })
}

/// Does what the words request, for `ann`, and gives the exit status.
pub fn answer(alloc: Global, words: &[String], outside: &mut Outside) -> Result<u8, AllocError>
    requires { IsOutside (memory_session outside.old.host) }
    ensures { IsOutside (memory_session outside.new.host) }
{
    let caller = ann(alloc, "/home/ann")?;
    let status = program(
        alloc,
        words,
        &caller,
        &mut outside.host,
        &mut outside.readings,
        &mut outside.inputs,
        &mut outside.out,
        &mut outside.err,
    );
    Ok(status.code)
}

// A spool directory with an empty list of users who may not use `at`.
fn spool(alloc: Global, plan: Plan) -> Result<MemoryHost, AllocError>
    ensures { IfOk result (λ host. IsOutside (memory_session host)) }
{
    let mut files = Files::new(alloc);
    if let Some(name) = Name::of(b"at.deny") {
        files.put(alloc, name, b"")?;
    }
    MemoryHost::make(alloc, files, plan)
}
