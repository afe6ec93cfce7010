//! Readings that record what they answered.
ghost use Rattle.std.specs.Prelude.{◌≡◌, ◌≤◌, [], true, IsTrue, None};
ghost use Rattle.host_calls.specs.Causes.{Rose};
ghost use Rattle.host_calls.specs.Clock.{with_load, with_now, with_rest};
ghost use Rattle.witnessed_host.specs.Answered.{answers_of};

use crate::{Reading, Trace};
use host_calls::Readings;

/// Readings next to the record of what they answered and how long they rested.
#[derive(Drop)]
pub struct NotedReadings<R: Readings + Drop> {
    readings: R,
    trace: Trace<Reading>,
}

impl<R: Readings + Drop> NotedReadings<R> {
    /// The readings, which answered nothing so far.
    pub fn new(readings: R) -> NotedReadings<R>
        ensures readings { result.readings ≡ readings }
        ensures nothing { result.trace.items ≡ [] }
    {
        NotedReadings {
            readings,
            trace: Trace::new(),
        }
    }
}

impl<R: Readings + Drop> Readings for NotedReadings<R> {
    ghost tells = { true };

    ghost answers = { λ own. answers_of own.trace.items };

    ghost readers = { λ own. R.Readings.readers own.readings };

    fn now(&mut self) -> i64
        ensures known { answers_of self.new.trace.items ≡ with_now result (answers_of self.old.trace.items) }
        ensures same { R.readers self.new.readings ≡ R.readers self.old.readings }
        ensures below { IsTrue R.tells
            → R.answers self.new.readings ≡ with_now result (R.answers self.old.readings) }
    {
        let now = self.readings.now();
        self.trace = self.trace.and(&Reading::Now(now));
        now
    }

    fn load(&mut self) -> Option<u32>
        ensures known { answers_of self.new.trace.items ≡ with_load result (answers_of self.old.trace.items) }
        ensures made_as { (R.readers self.new.readings).made_as ≡ (R.readers self.old.readings).made_as }
        ensures later { (R.readers self.old.readings).load_faults ≤ (R.readers self.new.readings).load_faults }
        ensures cause { result ≡ None
            → Rose (R.readers self.old.readings).load_faults (R.readers self.new.readings).load_faults }
        ensures below { IsTrue R.tells
            → R.answers self.new.readings ≡ with_load result (R.answers self.old.readings) }
    {
        let load = self.readings.load();
        self.trace = self.trace.and(&Reading::Load(load));
        load
    }

    fn rest(&mut self, seconds: u32)
        ensures known { answers_of self.new.trace.items ≡ with_rest seconds (answers_of self.old.trace.items) }
        ensures same { R.readers self.new.readings ≡ R.readers self.old.readings }
        ensures below { IsTrue R.tells
            → R.answers self.new.readings ≡ with_rest seconds (R.answers self.old.readings) }
    {
        self.readings.rest(seconds);
        self.trace = self.trace.and(&Reading::Rest(seconds));
    }
}
