//! Sessions one after another, until no awaited job lives.
ghost use Rattle.std.specs.Prelude.{◌≡◌, ◌≤◌, IfErr, IfSome};
ghost use Rattle.host_calls.specs.Session.{IsOutside};
ghost use Rattle.at_stat.specs.WaitSessions.{wait_at, wait_telling};
ghost use Rattle.at_stat.specs.inside.WaitResults.{Awaits, HasLooked, LooksAgain, Sees};

use crate::awaited::{awaited_numbers, has_live};
use crate::request::StatRequest;
use crate::session::look_at_jobs;
use at_words::Filter;
use host_calls::{Host, Readings};
use spool_model::UserName;
use spool_store::Store;
use std::alloc::Global;
use tool_output::CommandError;

// The seconds between two sessions.
const REST: u32 = 1;

// What the last session saw, and whether each awaited job was done by then.
#[derive(Drop)]
pub(crate) struct StatResult {
    pub(crate) store: Store,
    pub(crate) finished: bool,
}

// The sessions that are requested: one, or as many as it takes until no awaited job lives.
pub(crate) fn final_result<H: Host, R: Readings>(
    alloc: Global,
    user: &UserName,
    request: &StatRequest,
    host: &mut H,
    readings: &mut R,
) -> Result<StatResult, CommandError>
    requires outside { IsOutside (H.session host.old) }
    requires turns { IfSome request.now.wait (λ turns. 1 ≤ turns) }
    ensures { Sees (wait_telling H.tells H.alone R.tells) user.now request.now.wait request.now.which
        (wait_at (H.session host.old) (H.world host.old) (R.answers readings.old) (R.readers readings.old))
        (wait_at (H.session host.new) (H.world host.new) (R.answers readings.new) (R.readers readings.new)) result }
{
    let store = look_at_jobs(alloc, user, &request.which, host)?;
    match request.wait {
        Some(turns) => wait(alloc, user, &request.which, turns, store, host, readings),
        None => Ok(StatResult {
            store,
            finished: true,
        }),
    }
}

// Waits for the ends of the jobs that the first session saw, in so many sessions at most, of which that was one.
fn wait<H: Host, R: Readings>(
    alloc: Global,
    user: &UserName,
    which: &Filter,
    turns: u64,
    store: Store,
    host: &mut H,
    readings: &mut R,
) -> Result<StatResult, CommandError>
    requires outside { IsOutside (H.session host.old) }
    requires turns { 1 ≤ turns }
    ensures { Awaits (wait_telling H.tells H.alone R.tells) user.now turns which.now store
        (wait_at (H.session host.old) (H.world host.old) (R.answers readings.old) (R.readers readings.old))
        (wait_at (H.session host.new) (H.world host.new) (R.answers readings.new) (R.readers readings.new)) result }
{
    let awaited = awaited_numbers(alloc, &store, user, which)?;
    wait_for_ends(alloc, user, which, &awaited, turns, store, host, readings)
}

// Waits for the ends of these jobs.
fn wait_for_ends<H: Host, R: Readings>(
    alloc: Global,
    user: &UserName,
    which: &Filter,
    awaited: &[u32],
    turns: u64,
    store: Store,
    host: &mut H,
    readings: &mut R,
) -> Result<StatResult, CommandError>
    requires outside { IsOutside (H.session host.old) }
    requires turns { 1 ≤ turns }
    ensures { HasLooked (wait_telling H.tells H.alone R.tells) user.now turns which.now awaited.now store
        (wait_at (H.session host.old) (H.world host.old) (R.answers readings.old) (R.readers readings.old))
        (wait_at (H.session host.new) (H.world host.new) (R.answers readings.new) (R.readers readings.new)) result }
{
    let mut store = store;
    let mut looks = 1;
    while looks < turns && has_live(&store, awaited) {
        store = look_again(alloc, user, which, host, readings)?;
        looks += 1;
    }
    let finished = !has_live(&store, awaited);
    Ok(StatResult { store, finished })
}

// One more session, after a rest in which nothing is held.
fn look_again<H: Host, R: Readings>(
    alloc: Global,
    user: &UserName,
    which: &Filter,
    host: &mut H,
    readings: &mut R,
) -> Result<Store, CommandError>
    requires { IsOutside (H.session host.old) }
    ensures { LooksAgain (wait_telling H.tells H.alone R.tells) user.now which.now
        (wait_at (H.session host.old) (H.world host.old) (R.answers readings.old) (R.readers readings.old))
        (wait_at (H.session host.new) (H.world host.new) (R.answers readings.new) (R.readers readings.new)) result }
{
    readings.rest(REST);
    look_at_jobs(alloc, user, which, host)
}
