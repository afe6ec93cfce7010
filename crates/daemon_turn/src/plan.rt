//! What a turn will do is known before its first step.
ghost use Rattle.host_calls.specs.ClockRange.{IsClockSecond};
ghost use Rattle.queue_rules.specs.declared.due.Due.{Due};
ghost use Rattle.std.specs.Prelude.{◌≡◌, ◌∷◌, [], List, IfOk, IfSome, IfNone, filter, map, option_to_list};
ghost use Rattle.daemon_turn.specs.Decisions.{interrupts, is_job_without_kid};
ghost use Rattle.daemon_turn.specs.Kids.{AreKidsByNumber};
ghost use Rattle.daemon_turn.specs.StartOrder.{IsBatchOrderWhere, IsFullOrder, IsOrder, turn_of};
ghost use Rattle.daemon_turn.specs.declared.kid.Kid.{Kid};
ghost use Rattle.spool_model.specs.declared.turn_step.TurnStep.TheVariants.{Interrupted};
ghost use Rattle.daemon_turn.specs.inside.TurnPlan.{IsPlan};
ghost use Rattle.queue_rules.specs.Queues.{may_start_batch};

use crate::kids::has_kid;
use crate::{Kid, Mode, TurnInput, TurnStep};
use queue_rules::may_start_batch;
use spool_model::{Row, State};
use spool_store::{Due, Store};
use std::alloc::{AllocError, Global};

// What a turn will do on a store.
#[derive(Drop)]
pub(crate) struct TurnPlan {
    // The steps that give up the jobs that run and have no child.
    pub(crate) interrupted: Vec<TurnStep>,
    // The numbers of the jobs that start, in order.
    pub(crate) order: Vec<u32>,
}

// The plan of a turn with these children on the store.
pub(crate) fn turn_plan(
    alloc: Global,
    store: &Store,
    kids: &[Kid],
    limit: u32,
    interval: u32,
    at: TurnInput,
) -> Result<TurnPlan, AllocError>
    requires ordered { AreKidsByNumber kids.now }
    requires second { IsClockSecond at.now }
    ensures { IfOk result
        (IsPlan (record { kids = kids.now; limit = limit; interval = interval }) at store.now.table) }
{
    let interrupted = interrupted_steps(alloc, store, kids)?;
    let order = order(alloc, store, limit, interval, at)?;
    Ok(TurnPlan { interrupted, order })
}

// The steps that give up the jobs that run and have no child.
fn interrupted_steps(
    alloc: Global,
    store: &Store,
    kids: &[Kid],
) -> Result<Vec<TurnStep>, AllocError>
    requires { AreKidsByNumber kids.now }
    ensures { IfOk result (λ steps. steps.items ≡ interrupts store.now.table kids.now) }
{
    interrupts(alloc, store.rows(), kids)
}

fn interrupts(alloc: Global, rows: &[Row], kids: &[Kid]) -> Result<Vec<TurnStep>, AllocError>
    requires { AreKidsByNumber kids.now }
    ensures { IfOk result
        (λ steps. steps.items ≡ map (λ row. Interrupted row.number) (filter (is_job_without_kid kids.now) rows.now)) }
{
    rows.iter()
        .filter(|row| is_job_without_kid(row, kids))
        .map(|row| TurnStep::Interrupted(row.number))
        .collect(alloc)
}

// Whether the job runs and has no child.
fn is_job_without_kid(row: &Row, kids: &[Kid]) -> bool
    requires { AreKidsByNumber kids.now }
    ensures { result ≡ is_job_without_kid kids.now row.now }
{
    matches!(row.state, State::Running(_)) && !has_kid(kids, row.number)
}

// The numbers of the jobs that start, in order.
fn order(
    alloc: Global,
    store: &Store,
    limit: u32,
    interval: u32,
    at: TurnInput,
) -> Result<Vec<u32>, AllocError>
    requires { IsClockSecond at.now }
    ensures { IfOk result (λ numbers. (kids : List Kid)
        → IsOrder (turn_of (record { kids = kids; limit = limit; interval = interval }) at)
        store.now.table numbers.items) }
{
    match at.mode {
        Mode::Full => full_order(alloc, store, limit, interval, at),
        Mode::EndsOnly => Ok(Vec::new(alloc)),
    }
}

// All jobs that are due, and after them the first batch job, where one may start.
fn full_order(
    alloc: Global,
    store: &Store,
    limit: u32,
    interval: u32,
    at: TurnInput,
) -> Result<Vec<u32>, AllocError>
    requires { IsClockSecond at.now }
    ensures { IfOk result (λ numbers. (kids : List Kid)
        → IsFullOrder (turn_of (record { kids = kids; limit = limit; interval = interval }) at)
        store.now.table numbers.items) }
{
    let mut numbers = numbers_of_dues(alloc, store.due(at.now))?;
    if let Some(number) = batch_job(store, limit, interval, at) {
        numbers.push(number)?;
    }
    Ok(numbers)
}

// The numbers of jobs in line.
fn numbers_of_dues(alloc: Global, due_jobs: &[Due]) -> Result<Vec<u32>, AllocError>
    ensures { IfOk result (λ numbers. numbers.items ≡ map (λ due. due.number) due_jobs.now) }
{
    due_jobs.iter().map(|due| due.number).collect(alloc)
}

// The number of the first job in line.
fn first_of(due_jobs: &[Due]) -> Option<u32>
    ensures some { IfSome result (λ number. (due : Due) × (later : List Due)
        × (due_jobs.now ≡ due ∷ later) × (number ≡ due.number)) }
    ensures none { IfNone result (due_jobs.now ≡ []) }
{
    let due = due_jobs.first()?;
    Some(due.number)
}

// The first batch job, where one may start.
fn batch_job(store: &Store, limit: u32, interval: u32, at: TurnInput) -> Option<u32>
    requires { IsClockSecond at.now }
    ensures { IsBatchOrderWhere (may_start_batch at.load limit store.now.table.last_batch at.now interval)
        store.now.table at.now (option_to_list result) }
{
    if may_start_batch(at.load, limit, store.last_batch(), at.now, interval) {
        first_of(store.due_batch(at.now))
    } else {
        None
    }
}
