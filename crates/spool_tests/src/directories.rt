//! A session on a directory of some files, in which nothing fails.
ghost use Rattle.std.specs.Prelude.{IfOk};
ghost use Rattle.host_calls.specs.Session.{IsInside};
ghost use Rattle.memory_host.specs.Host.{memory_session};

use host_calls::{Host, Name};
use memory_host::{Files, MemoryHost, Plan};
use std::alloc::Global;
use std::test::Fail;

/// A session on a directory of these files, by their names.
pub fn session(alloc: Global, files: &[(&str, &[u8])]) -> Result<MemoryHost, Fail>
    ensures { IfOk result (λ host. IsInside (memory_session host)) }
{
    let mut host = MemoryHost::make(alloc, held(alloc, files)?, Plan::quiet(alloc))?;
    host.enter(alloc)?;
    Ok(host)
}

/// The name of a file.
pub fn name(text: &str) -> Result<Name, Fail> {
    Ok(Name::of(text.as_bytes()).ok_or("a name")?)
}

fn held(alloc: Global, files: &[(&str, &[u8])]) -> Result<Files, Fail> {
    let mut held = Files::new(alloc);
    for (text, bytes) in files {
        held.put(alloc, name(text)?, bytes)?;
    }
    Ok(held)
}
