//! One session of the program, over a spool in memory.
ghost use Rattle.host_calls.specs.Session.{IsOutside};
ghost use Rattle.memory_host.specs.Host.{memory_session};

use at_mail::post_program;
use memory_host::{ListReadings, MemoryHost, MemorySink};
use std::alloc::{AllocError, Global};

// The words of one session.
const WORDS: [&str; 5] = ["atpost", "--send", "/usr/sbin/sendmail", "--turns", "1"];

// What the clock tells.
const NOW: i64 = 1_735_689_600;

// Makes a session: whether it was done, with nothing to say.
pub(crate) fn is_done(alloc: Global, host: &mut MemoryHost) -> Result<bool, AllocError>
    requires { IsOutside (memory_session host.old) }
    ensures { IsOutside (memory_session host.new) }
{
    let words = texts(alloc, &WORDS)?;
    let mut readings = ListReadings::make(alloc, &[NOW], &[Some(42)])?;
    let mut err = MemorySink::make(alloc, None);
    let status = post_program(alloc, &words, host, &mut readings, &mut err);
    Ok(status.code == 0 && err.content().is_empty())
}

// The words as texts.
pub(crate) fn texts(alloc: Global, words: &[&str]) -> Result<Vec<String>, AllocError> {
    let mut texts = Vec::new(alloc);
    for word in words {
        texts.push(String::from_str(alloc, word)?)?;
    }
    Ok(texts)
}
