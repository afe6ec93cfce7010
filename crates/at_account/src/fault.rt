//! Why an account takes no more records.
ghost use Rattle.std.specs.Prelude.{◌≡◌};
ghost use Rattle.at_account.specs.declared.fault.AccountFault.TheVariants as faults;

use std::alloc::AllocError;

/// Why an account did not take what is new.
#[derive(Clone, Copy, Debug, PartialEq, Eq)]
pub enum AccountFault {
    /// There would be more records than an account has.
    Full,
    Memory,
}

impl From<AllocError> for AccountFault {
    ghost from_gives = { λ _ fault. fault ≡ faults.Memory };

    fn from(_error: AllocError) -> Self {
        AccountFault::Memory
    }
}
