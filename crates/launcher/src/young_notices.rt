//! Notices that an earlier atpost started a moment ago: the first session of another one removes their files, and what reads
//! them may not have opened them yet.
ghost use Rattle.std.specs.Prelude.{◌≡◌};
ghost use Rattle.system_calls.specs.Calls.{Continues};
ghost use Rattle.launcher.specs.YoungFiles.{is_young};

use host_calls::Name;
use mail_notes::notice_number;
use std::fs::DirEntry;
use std::os::unix::fs::MetadataExt;
use std::time::Duration;
use std::{fs, thread};
use system_calls::System;

// For how many seconds a file is young, how often it is looked for one, and how many milliseconds lie between.
const YOUTH: u64 = 5;

const LOOKS: u64 = 50;

const PAUSE: u64 = 100;

/// Waits while the spool has a file of a notice that is younger than five seconds, for at most as long.
pub fn await_young_notices<S: System>(rt: &HostRuntime, system: &mut S, spool: &str)
    ensures { Continues (S.trace system.old) (S.trace system.new) }
{
    if let Some(start) = system.seconds() {
        nap_while_young(rt, spool, start);
    }
}

// (the tenths of a second since the start are those of the looks)
fn nap_while_young(rt: &HostRuntime, spool: &str, start: u64) {
    for look in 0..LOOKS {
        if !has_young_notice(rt, spool, start.saturating_add(look / 10)) {
            return;
        }
        thread::sleep(rt, Duration::from_millis(PAUSE));
    }
}

fn has_young_notice(rt: &HostRuntime, spool: &str, now: u64) -> bool {
    let Ok(entries) = fs::read_dir(rt, spool) else {
        return false;
    };
    for entry in entries {
        match entry {
            Ok(entry) if is_young_notice(rt, &entry, now) => return true,
            Ok(_) => {}
            Err(_) => return false,
        }
    }
    false
}

fn is_young_notice(rt: &HostRuntime, entry: &DirEntry, now: u64) -> bool {
    let name = Name::of(entry.file_name().as_bytes());
    if name.and_then(|name| notice_number(&name)).is_none() {
        return false;
    }
    match fs::metadata(rt, entry.path()) {
        Ok(found) => is_young(found.mtime(), now),
        Err(_) => false,
    }
}

// Whether a file that was written at this second is young at another one, both since 1970.
fn is_young(written: i64, now: u64) -> bool
    ensures { result ≡ is_young written now }
{
    written >= 0 && now < (written as u64) + YOUTH
}
