//! A sink that records what was put.
ghost use Rattle.std.specs.Prelude.{◌≡◌, [], true, IsTrue};
ghost use Rattle.host_calls.specs.Causes.{HasCause};
ghost use Rattle.host_calls.specs.Sink.{Puts};

use crate::put_log::{Put, PutLog};
use host_calls::{Sink, SinkFault};
use std::alloc::Global;

/// A sink next to the record of the bytes that it said it took.
#[derive(Drop)]
pub struct NotedSink<S: Sink + Drop> {
    sink: S,
    log: PutLog,
}

impl<S: Sink + Drop> NotedSink<S> {
    /// The sink, to which nothing was put so far.
    pub fn new(sink: S) -> NotedSink<S>
        ensures sink { result.sink ≡ sink }
        ensures nothing { result.log.bytes ≡ [] }
    {
        NotedSink {
            sink,
            log: PutLog::new(),
        }
    }
}

impl<S: Sink + Drop> Sink for NotedSink<S> {
    ghost tells = { true };

    ghost content = { λ own. own.log.bytes };

    ghost outlet = { λ own. S.Sink.outlet own.sink };

    fn put(&mut self, alloc: Global, bytes: &[u8]) -> Result<(), SinkFault>
        ensures put { Puts bytes.now self.old.log.bytes self.new.log.bytes result }
        ensures made_as { (S.outlet self.new.sink).made_as ≡ (S.outlet self.old.sink).made_as }
        ensures cause { HasCause SinkFault.Failed
            (S.outlet self.old.sink).sink_faults (S.outlet self.new.sink).sink_faults result }
        ensures below { IsTrue S.tells → Puts bytes.now (S.content self.old.sink) (S.content self.new.sink) result }
    {
        let answer = self.sink.put(alloc, bytes);
        if answer.is_ok() {
            self.log = self.log.and(&Put { bytes });
        }
        answer
    }
}
