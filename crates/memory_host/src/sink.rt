//! A sink that keeps what is put.
ghost use Rattle.std.specs.Prelude.{◌≡◌, ◌≢◌, ◌+◌, [], None, Some, Err, min};
ghost use Rattle.host_calls.specs.Causes.{HasCause};
ghost use Rattle.host_calls.specs.Clock.{last_count};
ghost use Rattle.host_calls.specs.Sink.{Puts};
ghost use Rattle.memory_host.specs.Sink.{sink_spelling};

use host_calls::{Sink, SinkFault};
use std::alloc::Global;

/// A sink that keeps what is put, and fails at one put where that is planned.
#[derive(Drop)]
pub struct MemorySink {
    content: Vec<u8>,
    fails_at: Option<u64>,
    puts: u64,
    sink_faults: u64,
    ghost unfailing: { fails_at ≡ None → sink_faults ≡ 0 },
}

impl MemorySink {
    ghost use Rattle.memory_host.specs.MemorySink.{content_so_far, next_put, outlet_so_far};

    /// An empty sink. Its puts are counted from 0, and the one of the number `fails_at` writes nothing
    /// and fails. A put that runs out of memory is not counted.
    pub fn make(alloc: Global, fails_at: Option<u64>) -> MemorySink
        ensures content { content_so_far result ≡ [] }
        ensures next { next_put result ≡ 0 }
        ensures outlet { outlet_so_far result
            ≡ record { made_as = sink_spelling fails_at; sink_faults = 0 } }
    {
        MemorySink {
            content: Vec::new(alloc),
            fails_at,
            puts: 0,
            sink_faults: 0,
        }
    }

    /// All that was put.
    pub fn content(&self) -> &[u8]
        ensures { result.now ≡ content_so_far self.now }
    {
        &self.content
    }
}

impl Sink for MemorySink {
    ghost use Rattle.std.specs.Prelude.{true};
    ghost use Rattle.memory_host.specs.MemorySink.{content_so_far, failing_put, next_put, outlet_so_far};

    ghost tells = { true };

    ghost content = { content_so_far };

    ghost outlet = { outlet_so_far };

    fn put(&mut self, _alloc: Global, bytes: &[u8]) -> Result<(), SinkFault>
        ensures put { Puts bytes.now (content_so_far self.old) (content_so_far self.new) result }
        ensures made_as { (outlet_so_far self.new).made_as ≡ (outlet_so_far self.old).made_as }
        ensures cause { HasCause SinkFault.Failed
            (outlet_so_far self.old).sink_faults (outlet_so_far self.new).sink_faults result }
        ensures planned { failing_put self.old ≡ Some (next_put self.old) → result ≡ Err SinkFault.Failed }
        ensures unplanned { result ≡ Err SinkFault.Failed → failing_put self.old ≡ Some (next_put self.old) }
        ensures nothing { result ≡ Err SinkFault.Failed → content_so_far self.new ≡ content_so_far self.old }
        ensures counted { result ≢ Err SinkFault.Memory
            → next_put self.new ≡ min (next_put self.old + 1) last_count }
        ensures not_counted { result ≡ Err SinkFault.Memory → next_put self.new ≡ next_put self.old }
    {
        if self.fails_at == Some(self.puts) {
            self.sink_faults = self.sink_faults.saturating_add(1);
            self.puts = self.puts.saturating_add(1);
            return Err(SinkFault::Failed);
        }
        self.content.extend_from_slice(bytes)?;
        self.puts = self.puts.saturating_add(1);
        Ok(())
    }
}
