//! Readings that go along two lists of answers.
ghost use Rattle.std.specs.Prelude.{◌≡◌, ◌<◌, ◌≤◌, IfOk, Some, None, length, vec_len};
ghost use Rattle.host_calls.specs.Causes.{Rose};
ghost use Rattle.memory_host.specs.Readings.{answer_at, no_answers, readings_spelling};

use host_calls::Readings;
use std::alloc::{AllocError, Global};

/// A clock and a load that answer along two lists. The last answer of each repeats.
#[derive(Drop)]
pub struct ListReadings {
    nows: Vec<i64>,
    loads: Vec<Option<u32>>,
    now_count: u64,
    load_count: u64,
    load_faults: u64,
    rested: u64,
    ghost some_now: { 0 < vec_len nows },
    ghost some_load: { 0 < vec_len loads },
}

impl ListReadings {
    ghost use Rattle.memory_host.specs.ListReadings.{answers_so_far, readers_so_far};

    /// Readings that answer along these lists.
    pub fn make(
        alloc: Global,
        nows: &[i64],
        loads: &[Option<u32>],
    ) -> Result<ListReadings, AllocError>
        requires some_now { 0 < length nows.now }
        requires some_load { 0 < length loads.now }
        ensures answers { IfOk result (λ made. answers_so_far made ≡ no_answers) }
        ensures readers { IfOk result (λ made.
            readers_so_far made
            ≡ record { made_as = readings_spelling nows.now loads.now; load_faults = 0 }) }
    {
        Ok(ListReadings {
            nows: Vec::from_slice(alloc, nows)?,
            loads: Vec::from_slice(alloc, loads)?,
            now_count: 0,
            load_count: 0,
            load_faults: 0,
            rested: 0,
        })
    }

    /// For how many seconds a rest was asked, up to the last value of `u64`.
    pub fn rested(&self) -> u64
        ensures { result ≡ (answers_so_far self.now).rested }
    {
        self.rested
    }
}

impl Readings for ListReadings {
    ghost use Rattle.std.specs.Prelude.{true};
    ghost use Rattle.memory_host.specs.ListReadings.{answers_so_far, readers_so_far};

    ghost tells = { true };

    ghost answers = { answers_so_far };

    ghost readers = { readers_so_far };

    fn now(&mut self) -> i64 {
        let now = planned_answer(&self.nows, self.now_count);
        self.now_count = self.now_count.saturating_add(1);
        now
    }

    fn load(&mut self) -> Option<u32> {
        let load = planned_answer(&self.loads, self.load_count);
        self.load_count = self.load_count.saturating_add(1);
        self.load_faults = faults_after(self.load_faults, load);
        load
    }

    fn rest(&mut self, seconds: u32) {
        self.rested = self.rested.saturating_add(u64::from(seconds));
    }
}

// The answer of this number: the entry of the number, or the last of a list that is shorter.
fn planned_answer<T: Copy>(given: &[T], number: u64) -> T
    requires { 0 < length given.now }
    ensures { answer_at given.now number ≡ Some result }
{
    let last = given.len() - 1;
    if number < last as u64 {
        given[number as usize]
    } else {
        given[last]
    }
}

// How often no load could be read, with this answer.
fn faults_after(before: u64, load: Option<u32>) -> u64
    ensures later { before ≤ result }
    ensures rose { load ≡ None → Rose before result }
{
    match load {
        Some(_) => before,
        None => before.saturating_add(1),
    }
}
