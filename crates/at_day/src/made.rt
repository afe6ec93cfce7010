//! A day that is made from a number.
ghost use Rattle.std.specs.Prelude.{◌≡◌, ◌≤◌, IfOk};
ghost use Rattle.at_day.specs.Made.{made_day, made_events};

use crate::Events;
use crate::made_event::made_event;
use crate::made_plan::made_plan;
use at_words::MAX_EVENTS;
use memory_host::Plan;
use std::alloc::{AllocError, Global};

/// Events, and the plan of the host over which they go.
#[derive(Drop)]
pub struct Made {
    pub events: Events,
    pub plan: Plan,
}

/// So many events, a minute apart from the first second of 2025 on, and a plan by which nothing fails.
pub fn make_events(alloc: Global, count: u32) -> Result<Made, AllocError>
    requires { count ≤ MAX_EVENTS }
    ensures { IfOk result (λ made. made ≡ made_day count) }
{
    Ok(Made {
        events: events_to(alloc, count)?,
        plan: made_plan(alloc, count)?,
    })
}

// The events of the numbers below the count.
fn events_to(alloc: Global, count: u32) -> Result<Events, AllocError>
    requires { count ≤ MAX_EVENTS }
    ensures { IfOk result (λ events. events ≡ made_events count) }
{
    let mut events = Events::new(alloc);
    for number in 0..count {
        events.push(alloc, made_event(alloc, number)?)?;
    }
    Ok(events)
}
