//! The directory that a program names first, and the host of a program that names none.
ghost use Rattle.std.specs.Prelude.{◌≡◌, IfNone, IfOk, OnSome, map, option_map, remove, string_bytes};
ghost use Rattle.host_calls.specs.Session.{IsOutside};
ghost use Rattle.memory_host.specs.Host.{memory_session};
ghost use Rattle.process_input.specs.Directories.{directory_word, is_directory_word};

use memory_host::{Files, MemoryHost, Plan};
use std::alloc::{AllocError, Global};

/// Takes the directory out of the words of a program that names it first: the word after the program's name. None, and
/// the words as they were, where there is no such word, or it begins with `-`.
pub fn take_directory(words: &mut Vec<String>) -> Option<String>
    ensures directory { option_map string_bytes result ≡ directory_word (map string_bytes words.old.items) }
    ensures taken { OnSome result (words.new.items ≡ remove words.old.items 1) }
    ensures left { IfNone result (words.new.items ≡ words.old.items) }
{
    match words.as_slice() {
        [_, word, ..] if is_directory_word(word) => Some(words.remove(1)),
        _ => None,
    }
}

fn is_directory_word(word: &str) -> bool
    ensures { result ≡ is_directory_word word.now }
{
    !matches!(word.as_bytes(), [b'-', ..])
}

/// A host in memory without files.
pub fn no_spool(alloc: Global) -> Result<MemoryHost, AllocError>
    ensures { IfOk result (λ host. IsOutside (memory_session host)) }
{
    MemoryHost::make(alloc, Files::new(alloc), Plan::quiet(alloc))
}
