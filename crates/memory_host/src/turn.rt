//! The numbers of a call.
ghost use Rattle.std.specs.Prelude.{◌≡◌, ◌+◌, min};
ghost use Rattle.host_calls.specs.Clock.{last_count};

/// The numbers of a call.
#[derive(Clone, Copy)]
pub struct Turn {
    /// Its number since the host was made.
    pub call: u64,
    /// Its number since the last reboot.
    pub since_reboot: u64,
}

impl Turn {
    /// The numbers of the next call. They stop at the last value.
    pub fn next(self) -> Turn
        ensures call { result.call ≡ min (self.call + 1) last_count }
        ensures since_reboot { result.since_reboot ≡ min (self.since_reboot + 1) last_count }
    {
        Turn {
            call: self.call.saturating_add(1),
            since_reboot: self.since_reboot.saturating_add(1),
        }
    }
}
