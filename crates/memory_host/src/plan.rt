//! What is planned to fail.
ghost use Rattle.std.specs.Prelude.{◌≡◌};
ghost use Rattle.memory_host.specs.Plan.{quiet_plan};

use crate::{CallList, ChildPlans, FailingList};
use std::alloc::Global;

/// The calls that fail, the calls of `enter` that find the lock taken, the starts that fail, the call from
/// which on no call gets through, and how the children end. Calls are counted from 0.
#[derive(Drop)]
pub struct Plan {
    pub failing: FailingList,
    pub taken: CallList,
    pub failing_starts: CallList,
    pub fuse: Option<u64>,
    pub children: ChildPlans,
}

impl Plan {
    /// The plan by which nothing fails, and of no child.
    pub fn quiet(alloc: Global) -> Plan
        ensures { result ≡ quiet_plan }
    {
        Plan {
            failing: FailingList::new(alloc),
            taken: CallList::new(alloc),
            failing_starts: CallList::new(alloc),
            fuse: None,
            children: ChildPlans::new(alloc),
        }
    }
}
