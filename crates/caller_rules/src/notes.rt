//! The notes of mail of a spool, and which atpost keeps them without an end.
ghost use Rattle.std.specs.Prelude.{◌≡◌, map, string_bytes};
ghost use Rattle.caller_rules.specs.Notes.{is_endless};
ghost use Rattle.system_calls.specs.Calls.{Continues};

use crate::daemon_start::has_option;
use crate::spool_paths::path_within;
use std::alloc::{AllocError, Global};
use system_calls::System;

/// Whether the words of atpost request sessions without an end.
pub fn is_endless(words: &[String]) -> bool
    ensures { result ≡ is_endless (map string_bytes words.now) }
{
    has_option(words, "--send") && !has_option(words, "--turns")
}

/// Whether the spool has notes of mail.
pub fn has_notes<S: System>(system: &mut S, alloc: Global, spool: &str) -> Result<bool, AllocError>
    ensures { Continues (S.trace system.old) (S.trace system.new) }
{
    let path = path_within(alloc, spool, ".MAIL")?;
    Ok(system.status(path.as_str()).is_some())
}
