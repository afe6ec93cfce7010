//! How a session waits for a lock that another session holds.
ghost use Rattle.std.specs.Prelude.{◌≡◌, option_map};
ghost use Rattle.std.specs.Duration.{as_nanos};
ghost use Rattle.unix_host.specs.inside.Rests.{is_told, nap_after, rest_after};

use crate::paths::Paths;
use std::env::Env;
use std::time::{Clock, Duration};
use std::{str, thread};

// How often a lock is tried, a second apart, before it counts as taken.
const TRIES: u32 = 10;

// How many naps there are: of 1, 2, 4 and 8 milliseconds, and then of 10, they last five minutes together.
const NAPS: u32 = 30_002;

// After how many naps a line says what is waited for: after three seconds where somebody looks on, and after sixty elsewhere.
const NAPS_ON_TERMINAL: u32 = 302;

const NAPS_ELSEWHERE: u32 = 6_002;

/// How a session waits for a lock that another session holds.
#[derive(Clone, Copy, Debug, PartialEq, Eq)]
pub enum Waits {
    /// It tries ten times, a second apart.
    Asking,
    /// Before that it tries for five minutes, between naps of a few milliseconds. After one of them a line says so.
    Napping,
    /// The same, with a line after three seconds.
    NappingOnTerminal,
}

/// How long a session has waited so far.
#[derive(Clone, Copy)]
pub struct Waiting {
    waits: Waits,
    tries: u32,
}

impl Waiting {
    /// A session that waits so, before its first try.
    pub fn begun(waits: Waits) -> Waiting
        ensures { result ≡ record { waits = waits; tries = 0 } }
    {
        Waiting { waits, tries: 0 }
    }

    /// After one more try at a taken lock: rests, and answers whether there is a next try. Once it says what is waited for.
    pub fn goes_on<R: Clock + Env + Eprint>(&mut self, rt: &R, paths: &Paths) -> bool {
        self.tries = self.tries.saturating_add(1);
        if is_told(self.waits, self.tries) {
            say_wait(rt, paths.whole());
        }
        match rest_after(self.waits, self.tries) {
            Some(rest) => {
                thread::sleep(rt, rest);
                true
            }
            None => false,
        }
    }
}

// Whether the line comes after so many tries.
fn is_told(waits: Waits, tries: u32) -> bool
    ensures { result ≡ is_told waits tries }
{
    match waits {
        Waits::Asking => false,
        Waits::Napping => tries == NAPS_ELSEWHERE,
        Waits::NappingOnTerminal => tries == NAPS_ON_TERMINAL,
    }
}

// Says what is waited for, by the name as which the program was called. (a line that can't be written is lost)
fn say_wait<R: Env + Eprint>(rt: &R, spool: &str) {
    let mut name = [0; 256];
    let count = rt.arg(0, &mut name).unwrap_or(0).min(name.len());
    let path = str::from_utf8(&name[..count]).unwrap_or("");
    let tool = path.rsplit('/').next().unwrap_or(path);
    let _ = eprintln!(rt; "{tool}: waiting for another program that uses {spool}");
}

// How long a session rests after so many tries, if there is another try.
fn rest_after(waits: Waits, tries: u32) -> Option<Duration>
    ensures { option_map as_nanos result ≡ rest_after waits tries }
{
    let naps = match waits {
        Waits::Asking => 0,
        Waits::Napping | Waits::NappingOnTerminal => NAPS,
    };
    if tries <= naps {
        Some(Duration::from_millis(nap_after(tries)))
    } else if tries < naps + TRIES {
        Some(Duration::from_secs(1))
    } else {
        None
    }
}

// How many milliseconds the nap after so many tries lasts.
fn nap_after(tries: u32) -> u64
    ensures { result ≡ nap_after tries }
{
    2u64.pow(tries.saturating_sub(1).min(4)).min(10)
}
