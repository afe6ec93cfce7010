//! A rest that ends at a full second of the clock, and earlier where a file has changed or a child has ended.
ghost use Rattle.std.specs.Prelude.{◌≡◌, ◌≢◌, ◌-◌, ◌*◌, ◌||◌, ◌%◌, IfOk, nat_eq};
ghost use Rattle.std.specs.Duration.{as_nanos};
ghost use Rattle.std.specs.Path.{IsAbsolute};
ghost use Rattle.unix_host.specs.inside.Seconds.{nanos_left};
ghost use Rattle.unix_host.specs.inside.WatchedChildren.{has_new_end};

use crate::children::{ChildEnds, Children};
use crate::paths::file_path;
use crate::watched_file::WatchedFile;
use host_calls::Name;
use std::alloc::{AllocError, Global};
use std::fs::{File, Files};
use std::thread;
use std::time::{Clock, Duration};

/// Files and the children of this process, and when the clock was read and they were looked at last.
#[derive(Drop)]
pub struct Watch {
    files: Vec<WatchedFile>,
    children: Children,
    time: Option<Duration>,
}

impl Watch {
    /// A watch over these files of a directory, which have all been looked at.
    pub fn over<R: Files<File = File> + Clock>(
        rt: &R,
        alloc: Global,
        directory: &str,
        names: &[Name],
    ) -> Result<Watch, AllocError>
        requires { IsAbsolute directory.now }
    {
        let mut files = Vec::with_capacity(alloc, names.len())?;
        for name in names {
            files.push(WatchedFile::at(file_path(alloc, directory, name)?))?;
        }
        let mut watch = Watch {
            files,
            children: Children::none(alloc),
            time: None,
        };
        watch.look(rt);
        Ok(watch)
    }

    /// Reads the clock, and looks at the files.
    pub fn look<R: Files<File = File> + Clock>(&mut self, rt: &R) -> Option<Duration>
        ensures { self.new.time ≡ result }
    {
        self.time = rt.since_1970().ok();
        for file in &mut self.files {
            file.look(rt);
        }
        self.time
    }

    /// Rests until the clock tells the second that comes so many after that of the last look, for no longer than so many
    /// seconds, and for less where a file has changed since then or a child has ended. The end of a child ends one rest.
    pub fn rest<R: Files<File = File> + Clock>(&mut self, rt: &R, seconds: u32) {
        self.children.list(rt);
        self.nap(rt, seconds);
        self.look(rt);
    }

    fn nap<R: Files<File = File> + Clock>(&mut self, rt: &R, seconds: u32) {
        for place in 0..naps_in(seconds) {
            let left = time_left(seconds, self.time, rt.since_1970().ok());
            let is_changed = place > 0 && self.has_changed(rt);
            let ends = if looks_at_children(place) {
                Some(self.children.look(rt))
            } else {
                None
            };
            if ends_rest(left, is_changed, ends) {
                return;
            }
            thread::sleep(rt, nap_at(place).min(left));
        }
    }

    fn has_changed<R: Files>(&self, rt: &R) -> bool {
        self.files.iter().any(|file| file.has_changed(rt))
    }
}

// Whether a rest is over: no time is left, a file has changed, or a child has ended.
fn ends_rest(left: Duration, is_changed: bool, ends: Option<ChildEnds>) -> bool
    ensures { result ≡ (nat_eq (as_nanos left) 0 || (is_changed || has_new_end ends)) }
{
    left.is_zero() || is_changed || ends.is_some_and(|ends| ends.is_new())
}

// Whether children are looked at before the nap of this place: once a second.
fn looks_at_children(place: u64) -> bool
    ensures { result ≡ nat_eq (place % 4) 1 }
{
    place % 4 == 1
}

// How many naps last so many seconds.
fn naps_in(seconds: u32) -> u64
    ensures { result ≡ 4 * seconds - 3 }
{
    (4 * u64::from(seconds)).saturating_sub(3)
}

// How long a nap lasts. In the first, of a whole second, no change is seen: however many there are, the rests of a minute
// are not more than its seconds.
fn nap_at(place: u64) -> Duration
    ensures first { place ≡ 0 → as_nanos result ≡ 1_000_000_000 }
    ensures later { place ≢ 0 → 4 * as_nanos result ≡ 1_000_000_000 }
{
    if place == 0 {
        Duration::from_secs(1)
    } else {
        Duration::from_millis(250)
    }
}

// How long a rest of so many seconds still lasts that began at one time, and of which the clock tells another.
fn time_left(seconds: u32, began: Option<Duration>, now: Option<Duration>) -> Duration
    ensures { as_nanos result ≡ nanos_left seconds began now }
{
    let whole = Duration::from_secs(u64::from(seconds));
    match (began, now) {
        (Some(began), Some(now)) => {
            let passed = now.saturating_sub(Duration::from_secs(began.as_secs()));
            whole.saturating_sub(passed)
        }
        _ => whole,
    }
}
