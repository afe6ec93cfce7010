//! How often a call failed, or was disputed.
ghost use Rattle.std.specs.Prelude.{◌≡◌, ◌≢◌, ◌≤◌, IsErrOf};
ghost use Rattle.host_calls.specs.Causes.{HasCause, Rose};

use host_calls::{EnterFault, HostFault, InputFault, StartFault};

/// How many faults of files, of starts and how many taken locks there were.
#[derive(Clone, Copy)]
pub struct FaultCounts {
    pub files: u64,
    pub starts: u64,
    pub taken: u64,
}

impl FaultCounts {
    /// Counts a call on the files by its answer.
    pub fn file_call<T>(&mut self, answer: Result<T, HostFault>) -> Result<T, HostFault>
        ensures same { result ≡ answer }
        ensures cause { HasCause HostFault.Failed self.old.files self.new.files result }
        ensures quiet { ¬ (IsErrOf result HostFault.Failed) → self.new.files ≡ self.old.files }
        ensures starts { self.new.starts ≡ self.old.starts }
        ensures taken { self.new.taken ≡ self.old.taken }
    {
        if let Err(HostFault::Failed) = &answer {
            self.files = self.files.saturating_add(1);
        }
        answer
    }

    /// Counts a start by its answer.
    pub fn start_call<T>(&mut self, answer: Result<T, StartFault>) -> Result<T, StartFault>
        ensures same { result ≡ answer }
        ensures cause { HasCause StartFault.Failed self.old.starts self.new.starts result }
        ensures quiet { ¬ (IsErrOf result StartFault.Failed) → self.new.starts ≡ self.old.starts }
        ensures files { self.new.files ≡ self.old.files }
        ensures taken { self.new.taken ≡ self.old.taken }
    {
        if let Err(StartFault::Failed) = &answer {
            self.starts = self.starts.saturating_add(1);
        }
        answer
    }

    /// Counts a call that begins a session, by its answer.
    pub fn enter_call(&mut self, answer: Result<(), EnterFault>) -> Result<(), EnterFault>
        ensures same { result ≡ answer }
        ensures taken { HasCause EnterFault.Taken self.old.taken self.new.taken result }
        ensures failed { HasCause EnterFault.Failed self.old.files self.new.files result }
        ensures no_taken { ¬ (IsErrOf result EnterFault.Taken) → self.new.taken ≡ self.old.taken }
        ensures no_failed { ¬ (IsErrOf result EnterFault.Failed) → self.new.files ≡ self.old.files }
        ensures starts { self.new.starts ≡ self.old.starts }
    {
        match &answer {
            Err(EnterFault::Taken) => self.taken = self.taken.saturating_add(1),
            Err(EnterFault::Failed) => self.files = self.files.saturating_add(1),
            Err(EnterFault::Memory) | Ok(()) => {}
        }
        answer
    }
}

/// Counts a call on inputs by its answer.
pub fn input_call<T>(faults: &mut u64, answer: Result<T, InputFault>) -> Result<T, InputFault>
    ensures same { result ≡ answer }
    ensures cause { HasCause InputFault.Failed faults.old faults.new result }
    ensures quiet { ¬ (IsErrOf result InputFault.Failed) → faults.new ≡ faults.old }
{
    if let Err(InputFault::Failed) = &answer {
        *faults = faults.saturating_add(1);
    }
    answer
}
