//! The clock and the load of the machine.
ghost use Rattle.std.specs.Prelude.{◌≡◌, ◌≤◌, [], false, IfOk, IsSome, None};
ghost use Rattle.std.specs.Path.{IsAbsolute};
ghost use Rattle.host_calls.specs.Causes.{Rose};
ghost use Rattle.unix_host.specs.inside.Seconds.{second_in};

use crate::prefix::fill_buffer;
use crate::watch::Watch;
use host_calls::{Name, Readings};
use load_reading::hundredths;
use std::alloc::{AllocError, Global};
use std::fs::{File, Files};
use std::thread;
use std::time::{Clock, Duration};

/// The system's clock and load. The load comes from `/proc/loadavg`.
#[derive(Drop)]
pub struct UnixReadings<R: Files<File = File> + Clock + Drop> {
    rt: R,
    // What ends a rest, where that is more than its time.
    watch: Option<Watch>,
    pub(crate) load_faults: u64,
}

impl<R: Files<File = File> + Clock + Drop> UnixReadings<R> {
    /// The clock and the load of this runtime.
    pub fn make(rt: R) -> UnixReadings<R>
        ensures { result.load_faults ≡ 0 }
    {
        UnixReadings {
            rt,
            watch: None,
            load_faults: 0,
        }
    }

    /// The same, whose rests end at a full second of the clock, and earlier where one of these files of a directory has
    /// changed since the clock was read. The path of the directory is absolute, since a session may change the current
    /// directory.
    pub fn watching(
        rt: R,
        alloc: Global,
        directory: &str,
        names: &[Name],
    ) -> Result<UnixReadings<R>, AllocError>
        requires { IsAbsolute directory.now }
        ensures { IfOk result (λ made. made.load_faults ≡ 0) }
    {
        let watch = Some(Watch::over(&rt, alloc, directory, names)?);
        Ok(UnixReadings {
            rt,
            watch,
            load_faults: 0,
        })
    }
}

impl<R: Files<File = File> + Clock + Drop> Readings for UnixReadings<R> {
    ghost tells = { false };

    ghost answers = { λ _. record { nows = []; loads = []; rested = 0 } };

    ghost readers = { λ own. record { made_as = []; load_faults = own.load_faults } };

    fn now(&mut self) -> i64 {
        let time = match &mut self.watch {
            Some(watch) => watch.look(&self.rt),
            None => self.rt.since_1970().ok(),
        };
        second_of(time)
    }

    fn load(&mut self) -> Option<u32>
        ensures later { self.old.load_faults ≤ self.new.load_faults }
        ensures cause { result ≡ None → Rose self.old.load_faults self.new.load_faults }
        ensures counts { IsSome result → self.new.load_faults ≡ self.old.load_faults }
    {
        let load = load_of(&self.rt);
        if load.is_none() {
            self.load_faults = self.load_faults.saturating_add(1);
        }
        load
    }

    fn rest(&mut self, seconds: u32) {
        match &mut self.watch {
            Some(watch) => watch.rest(&self.rt, seconds),
            None => thread::sleep(&self.rt, Duration::from_secs(u64::from(seconds))),
        }
    }
}

// The second of this time, and -1 where it can't be read or lies after each second that can be told.
fn second_of(time: Option<Duration>) -> i64
    ensures { result ≡ second_in time }
{
    match time {
        Some(time) => i64::try_from(time.as_secs()).unwrap_or(-1),
        None => -1,
    }
}

fn load_of<R: Files<File = File>>(rt: &R) -> Option<u32> {
    let mut file = File::open(rt, "/proc/loadavg").ok()?;
    let mut text = [0; 64];
    let count = fill_buffer(&mut file, &mut text).ok()?;
    hundredths(&text[..count])
}
