//! Hints that say what stops the use of a spool.
ghost use Rattle.std.specs.Prelude.{◌≡◌, IfOk, string_bytes};
ghost use Rattle.tool_help.specs.SpoolHints.{spool_hint_of};

use std::alloc::{AllocError, Global};

/// What stops the use of a spool.
#[derive(Clone, Copy, Debug, PartialEq, Eq)]
pub enum SpoolTrouble {
    /// The path is absent.
    Absent,
    /// The path is no directory.
    NoDirectory,
    /// The caller may not read or write the spool.
    NotYours,
    /// The caller may not write the directory that holds the spool.
    Unwritable,
    /// The disk has no room.
    Full,
    /// The caller's quota is used up.
    Quota,
    /// The disk takes no writes.
    ReadOnly,
    /// The path belongs to another user.
    OtherUser,
    /// The path next to the spool is a link.
    Link,
    /// None of these.
    Unknown,
}

/// What to do about it, by the path that it is about.
pub fn spool_hint(alloc: Global, trouble: SpoolTrouble, path: &str) -> Result<String, AllocError>
    ensures { IfOk result (λ hint. string_bytes hint ≡ spool_hint_of trouble path.now) }
{
    match trouble {
        SpoolTrouble::Absent => format!(in alloc;
            "{path} is not there: make it, or name another spool by ATSPOOL"
        ),
        SpoolTrouble::NoDirectory => format!(in alloc; "{path} is no folder"),
        SpoolTrouble::NotYours => {
            format!(in alloc;
                "{path} is not yours to read and write: unset ATSPOOL for a spool of your own"
            )
        }
        SpoolTrouble::Unwritable => {
            format!(in alloc;
                "{path} is not yours to write: what stands beside the spool is made there"
            )
        }
        SpoolTrouble::Full => {
            format!(in alloc;
                "the disk of {path} is full: make room there, as by removing old outputs"
            )
        }
        SpoolTrouble::Quota => format!(in alloc;
            "your quota on the disk of {path} is used up: make room there"
        ),
        SpoolTrouble::ReadOnly => format!(in alloc;
            "the disk of {path} takes no writes: see how it is mounted"
        ),
        SpoolTrouble::OtherUser => {
            format!(in alloc;
                "{path} belongs to another user: unset ATSPOOL, or run it as that user"
            )
        }
        SpoolTrouble::Link => format!(in alloc;
            "{path} is a link: remove it, since what stands beside a spool is none"
        ),
        SpoolTrouble::Unknown => {
            format!(in alloc; "look at {path}, {path}.lock and {path}.out, and see atjobs(5)")
        }
    }
}
