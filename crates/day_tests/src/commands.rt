//! Commands of a length that no scenario writes down.

use crate::memory::{NOW, answer, made_in_memory};
use crate::texts::texts;
use host_calls::Name;
use memory_host::Plan;
use std::alloc::Global;
use std::test::Fail;

// What a job's text has besides the commands, for `ann`.
const CONTEXT: &[u8] = b"#!/bin/sh
# at user=ann mail=0
umask 0022
HOME='/home/ann'; export HOME
cd '/home/ann' || {
\techo 'Execution directory inaccessible' >&2
\texit 1
}
";

// The status of `at now` with so many bytes of commands, and how long the job's text is.
fn of_length(alloc: Global, count: usize) -> Result<(u8, Option<usize>), Fail> {
    let words = texts(alloc, &["at", "now"])?;
    let name = Name::of(b"a0000000101b968a0").ok_or("a name")?;
    let input = vec![in alloc; b'x'; count]?;
    let mut memory = made_in_memory(alloc, NOW, &input, Plan::quiet(alloc))?;
    let answered = answer(alloc, &words, &mut memory);
    let length = memory.host.reading(&name).map(|text| text.len());
    drop(memory);
    Ok((answered?, length))
}

#[test]
fn longest_commands(rt: HostRuntime) -> Result<(), Fail> {
    let longest = Some(CONTEXT.len() + 1_048_576);
    for &(count, wanted) in &[(1_048_576, (0, longest)), (1_048_577, (1, None))] {
        assert_eq!(rt; of_length(rt.alloc(), count)?, wanted);
    }
    Ok(())
}
