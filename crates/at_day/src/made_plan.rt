//! The plan of a simulated run: nothing fails, and children end after up to two questions.
ghost use Rattle.std.specs.Prelude.{◌≡◌, ◌≢◌, ◌≤◌, IfOk};
ghost use Rattle.at_day.specs.Plans.{made_child, made_children, made_plan};

use at_words::MAX_EVENTS;
use host_calls::Ending;
use memory_host::{ChildPlan, ChildPlans, Plan};
use std::alloc::{AllocError, Global};

/// The plan of a day of so many events.
pub fn made_plan(alloc: Global, count: u32) -> Result<Plan, AllocError>
    requires { count ≤ MAX_EVENTS }
    ensures { IfOk result (λ plan. plan ≡ made_plan count) }
{
    let mut plan = Plan::quiet(alloc);
    plan.children = children_to(alloc, count)?;
    Ok(plan)
}

// The plans of the children of the numbers below the count.
fn children_to(alloc: Global, count: u32) -> Result<ChildPlans, AllocError>
    requires { count ≤ MAX_EVENTS }
    ensures { IfOk result (λ plans. plans ≡ made_children count) }
{
    let mut plans = ChildPlans::new(alloc);
    for number in 0..count {
        plans.push(alloc, made_child(number))?;
    }
    Ok(plans)
}

// The plan of the child of this number.
fn made_child(number: u32) -> ChildPlan
    ensures plan { result ≡ made_child number }
    ensures ends { result.ending ≢ Ending.NotStarted }
{
    ChildPlan {
        asks: number % 3,
        ending: Ending::Exit((number % 2) as u8),
    }
}
