//! How children end.
ghost use Rattle.std.specs.Prelude.{◌≡◌, ◌≢◌, ◌++◌, [], ◌∷◌, is_ok, if◌then◌else◌};
ghost use Rattle.memory_host.specs.Children.{plan_of};

use host_calls::Ending;
use std::alloc::{AllocError, Global};
use std::marker::Model;

/// A child that has not ended at its first questions, and then ends so.
#[derive(Clone, Copy)]
pub struct ChildPlan {
    pub asks: u32,
    pub ending: Ending,
}

/// A list of children's plans, by the number of their start.
#[derive(Drop)]
pub struct ChildPlans {
    inner: Vec<ChildPlan>,
}

impl Model for ChildPlans {
    ghost use Rattle.std.specs.Prelude.{List};
    ghost use Rattle.memory_host.specs.inside.Kin.{AreEndings};
    ghost use Rattle.memory_host.specs.declared.child_plans.ChildPlan.{ChildPlan};

    ghost Value = { List ChildPlan };

    ghost view = { λ plans. plans.inner.items };

    ghost invariant = { λ plans. AreEndings plans.inner.items };
}

impl ChildPlans {
    /// A list without a plan.
    pub fn new(alloc: Global) -> ChildPlans
        ensures { result ≡ [] }
    {
        ChildPlans {
            inner: Vec::new(alloc),
        }
    }

    /// Adds the plan of the next child.
    pub fn push(&mut self, alloc: Global, plan: ChildPlan) -> Result<(), AllocError>
        requires { plan.ending ≢ Ending.NotStarted }
        ensures { self.new ≡ (if is_ok result then self.old ++ plan ∷ [] else self.old) }
    {
        let _ = alloc;
        self.inner.push(plan)?;
        Ok(())
    }

    /// The plan of the child with this number. Beyond the list a child has ended well.
    pub fn plan(&self, child: u64) -> ChildPlan
        ensures plan { result ≡ plan_of self.now child }
        ensures ends { result.ending ≢ Ending.NotStarted }
    {
        if child < self.inner.len() as u64 {
            return self.inner[child as usize];
        }
        ChildPlan {
            asks: 0,
            ending: Ending::Exit(0),
        }
    }
}
