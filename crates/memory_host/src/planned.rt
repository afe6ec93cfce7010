//! What is planned for the next call of the host in memory, and how a call is counted.
ghost use Rattle.std.specs.Prelude.{◌≡◌, IsSome, Err, None, Ok, Some, is_some, if◌then◌else◌};
ghost use Rattle.host_calls.specs.Session.{CallsInside, IsInside};
ghost use Rattle.memory_host.specs.Host.{memory_session, memory_world, progress_of};
ghost use Rattle.memory_host.specs.Plan.{is_blown, next_part, next_start_fails, progress_after_call};
ghost use Rattle.memory_host.specs.inside.Faults.{finds_taken};

use crate::{MemoryHost, Part};
use host_calls::HostFault;

impl MemoryHost {
    // Whether the fuse lets the next call not through.
    fn is_blown(&self) -> bool
        ensures { result ≡ is_blown (progress_of self.now) }
    {
        match self.fuse {
            Some(first) => first <= self.turn.since_reboot,
            None => false,
        }
    }

    // How much the next call does before it fails, if it fails.
    pub(crate) fn next_part(&self) -> Option<Part>
        ensures { result ≡ next_part (progress_of self.now) }
    {
        if self.is_blown() {
            return Some(Part::Nothing);
        }
        self.plan.failing.part(self.turn.call)
    }

    // Whether the next call finds the lock taken if it is an `enter`. The fuse decides first.
    pub(crate) fn finds_taken(&self) -> bool
        ensures { result ≡ finds_taken (progress_of self.now) }
    {
        !self.is_blown() && self.plan.taken.names(self.turn.call)
    }

    // The number of the next start.
    pub(crate) fn next_start(&self) -> u64
        ensures { result ≡ (progress_of self.now).starts }
    {
        self.waits.len() as u64
    }

    // Whether the next call fails if it is a start.
    pub(crate) fn next_start_fails(&self) -> bool
        ensures { result ≡ next_start_fails (progress_of self.now) }
    {
        self.next_part().is_some() || self.plan.failing_starts.names(self.next_start())
    }

    // Counts a call on the files that fails with nothing done.
    pub(crate) fn fail<T>(&mut self) -> Result<T, HostFault>
        requires inside { IsInside (memory_session self.old) }
        requires planned { IsSome (next_part (progress_of self.old)) }
        ensures failed { result ≡ Err HostFault.Failed }
        ensures inside { CallsInside HostFault.Failed (memory_session self.old) (memory_session self.new) result }
        ensures world { memory_world self.new ≡ memory_world self.old }
        ensures counted { progress_of self.new ≡ progress_after_call (progress_of self.old) }
    {
        self.turn = self.turn.next();
        self.file_faults = self.file_faults.saturating_add(1);
        Err(HostFault::Failed)
    }

    // Counts a call on the files that succeeds with this value.
    pub(crate) fn pass<T>(&mut self, value: T) -> Result<T, HostFault>
        requires { IsInside (memory_session self.old) }
        ensures passed { result ≡ Ok value }
        ensures inside { CallsInside HostFault.Failed (memory_session self.old) (memory_session self.new) result }
        ensures world { memory_world self.new ≡ memory_world self.old }
        ensures counted { progress_of self.new ≡ progress_after_call (progress_of self.old) }
    {
        self.turn = self.turn.next();
        Ok(value)
    }

    // Counts a call on the files that did its work, and fails where that was planned.
    pub(crate) fn finish(&mut self, part: Option<Part>) -> Result<(), HostFault>
        requires inside { IsInside (memory_session self.old) }
        requires planned { part ≡ next_part (progress_of self.old) }
        ensures answer { result ≡ (if is_some part then Err HostFault.Failed else Ok tt) }
        ensures inside { CallsInside HostFault.Failed (memory_session self.old) (memory_session self.new) result }
        ensures world { memory_world self.new ≡ memory_world self.old }
        ensures counted { progress_of self.new ≡ progress_after_call (progress_of self.old) }
    {
        match part {
            Some(_) => self.fail(),
            None => self.pass(()),
        }
    }
}
