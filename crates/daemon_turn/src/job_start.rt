//! One job is started, and its script started.
ghost use Rattle.host_calls.specs.ClockRange.{IsClockSecond};
ghost use Rattle.host_calls.specs.Directory.{Directory, reading_of};
ghost use Rattle.step_runs.specs.Current.{IsCurrent};
ghost use Rattle.step_runs.specs.Made.{IsScriptFile};
ghost use Rattle.spool_model.specs.declared.step.Step.TheVariants.{Start};
ghost use Rattle.spool_model.specs.JobTable.{JobTable};
ghost use Rattle.spool_store.specs.Listed.{IsLive};
ghost use Rattle.spool_store.specs.OneStep.{MayStep};
ghost use Rattle.daemon_turn.specs.inside.StartedJob.{HandsJobOver};

use host_calls::{Child, Host, Name, StartFault};
use job_name::JobName;
use queue_rules::nice_of;
use spool_store::{Store, StoreFault};
use std::alloc::Global;

// Starts the pending job of this number at this second, and its script. No child where the host could
// start none.
pub(crate) fn start_job<H: Host>(
    alloc: Global,
    host: &mut H,
    store: Store,
    number: u32,
    second: i64,
) -> Result<(Store, Option<Child>), StoreFault>
    requires may { MayStep H.tells (H.session host.old) (H.world host.old) store (Start number second) }
    requires second { IsClockSecond second }
    ensures { HandsJobOver H.tells (H.session host.old) (H.session host.new)
        (H.world host.old) (H.world host.new) store number second result }
{
    // A crash between the start and a later mark would let the next turn start the same script again.
    let store = store.start(alloc, host, number, second)?;
    let (name, nice) = script_file(&store, number);
    match host.start(alloc, number, &name, nice) {
        Ok(child) => Ok((store, Some(child))),
        Err(StartFault::Failed) => Ok((store, None)),
        Err(StartFault::Memory) => Err(StoreFault::Memory),
    }
}

// The name of the live job's file, and how nice its script runs.
fn script_file(store: &Store, number: u32) -> (Name, u8)
    requires { IsLive store.now.table number }
    ensures { (directory : Directory) (table : JobTable) → IsCurrent store.now directory table
        → IsScriptFile table (reading_of directory) number result.0 result.1 }
{
    let name = store.file(number).unwrap();
    let job = JobName::read(name.as_bytes()).unwrap();
    (name, nice_of(job.queue))
}
