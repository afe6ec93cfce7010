//! All faults of a spool directory.
ghost use Rattle.std.specs.Prelude.{◌≡◌};

use host_calls::Damage;
use std::marker::Model;

/// The faults of a directory, in the order in which recovery looks for the first of them. A contract sees them as a
/// list.
#[derive(Drop)]
pub struct FaultList {
    pub(crate) faults: Vec<Damage>,
}

impl Model for FaultList {
    ghost use Rattle.std.specs.Prelude.{List};
    ghost use Rattle.host_calls.specs.declared.damage.Damage.{Damage};

    ghost Value = { List Damage };

    ghost view = { λ list. list.faults.items };
}

impl FaultList {
    /// The faults, in their order.
    pub fn as_slice(&self) -> &[Damage]
        ensures { result.now ≡ self.now }
    {
        self.faults.as_slice()
    }
}
