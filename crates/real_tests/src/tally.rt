//! How many answers were compared, and how many of them disputed.
ghost use Rattle.std.specs.Prelude.{◌≡◌, ◌≤◌, true, false, is_ok};
ghost use Rattle.real_tests.specs.Kept.{verdict};

use host_calls::HostFault;

/// The answers that were compared, and those among them that were disputed.
#[derive(Clone, Copy, Debug)]
pub struct Tally {
    pub compared: u64,
    pub disputes: u64,
}

impl Tally {
    /// Whether at least so many answers were compared, and none of them disputed.
    pub fn is_undisputed(&self, least: u64) -> bool {
        self.compared >= least && self.disputes == 0
    }

    /// Counts an answer by whether it is as it should be.
    pub fn count(&mut self, agrees: bool)
        ensures disputed { agrees ≡ true → self.new.disputes ≡ self.old.disputes }
        ensures more { self.old.disputes ≤ self.new.disputes }
    {
        self.compared = self.compared.saturating_add(1);
        if !agrees {
            self.disputes = self.disputes.saturating_add(1);
        }
    }

    /// Counts an answer that all went well, by what the model answered to the same call.
    pub fn judge(&mut self, mine: Result<(), HostFault>) -> Result<(), HostFault>
        ensures { result ≡ verdict mine }
    {
        self.count(mine.is_ok());
        match mine {
            Ok(()) => Ok(()),
            Err(_) => Err(HostFault::Failed),
        }
    }
}
