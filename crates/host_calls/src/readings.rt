//! The clock and the load.
ghost use Rattle.std.specs.Prelude.{◌≡◌, ◌≤◌, Bool, IsTrue, IsNone};
ghost use Rattle.host_calls.specs.Causes.{Rose};
ghost use Rattle.host_calls.specs.Clock.{Answers, Readers, with_now, with_load, with_rest};

/// A clock, the load of the machine, and rest.
pub trait Readings {
    /// Whether it exposes its answers.
    ghost tells: { Bool };

    /// The answers so far. They mean something only where they are recorded.
    ghost answers: { Self → Answers };

    /// What all readings report.
    ghost readers: { Self → Readers };

    /// Seconds since 1970-01-01 00:00:00 UTC.
    fn now(&mut self) -> i64
        ensures known { IsTrue tells → answers self.new ≡ with_now result (answers self.old) }
        ensures same { readers self.new ≡ readers self.old };

    /// The load of the last minute in hundredths, if it could be read.
    fn load(&mut self) -> Option<u32>
        ensures known { IsTrue tells → answers self.new ≡ with_load result (answers self.old) }
        ensures made_as { (readers self.new).made_as ≡ (readers self.old).made_as }
        ensures later { (readers self.old).load_faults ≤ (readers self.new).load_faults }
        ensures cause { result ≡ None → Rose (readers self.old).load_faults (readers self.new).load_faults };

    /// Rests for that many seconds.
    fn rest(&mut self, seconds: u32)
        ensures known { IsTrue tells → answers self.new ≡ with_rest seconds (answers self.old) }
        ensures same { readers self.new ≡ readers self.old };
}
