//! The removal of jobs.
ghost use Rattle.std.specs.Prelude.{◌≡◌, IfErr, IfOk, IsTrue};
ghost use Rattle.host_calls.specs.Session.{CallsInside, IsInside};
ghost use Rattle.host_calls.specs.World.{TimePasses};
ghost use Rattle.listing_text.specs.declared.cause.Cause.TheVariants as cause;
ghost use Rattle.spool_model.specs.JobTable.{JobTable};
ghost use Rattle.spool_model.specs.Lists.{surplus};
ghost use Rattle.spool_model.specs.Steps.{AreLegal};
ghost use Rattle.step_runs.specs.Current.{IsCurrent};
ghost use Rattle.tool_output.specs.Causes.{cause_in, error_of};
ghost use Rattle.command_rules.specs.Requested.{forget_steps, removes};
ghost use Rattle.command_rules.specs.Sessions.{CommandWorks};
ghost use Rattle.at_commands.specs.Removal.{AreRemoval, ComesOfRemoving};

use command_rules::CommandError;
use host_calls::Host;
use spool_model::Step;
use spool_store::Store;
use std::alloc::{AllocError, Global};

/// Removes the pending jobs of these numbers, in order. Then it forgets the lowest of the done numbers, as many as
/// are too many.
pub fn remove_jobs<H: Host>(
    alloc: Global,
    host: &mut H,
    store: Store,
    numbers: &[u32],
) -> Result<(), CommandError>
    requires inside { IsInside (H.session host.old) }
    requires legal { AreLegal store.table (removes numbers.now) }
    requires current { IsTrue H.tells → (table : JobTable) × IsCurrent store (H.world host.old).now.directory table }
    ensures inside { CallsInside (error_of cause.FileFault) (H.session host.old) (H.session host.new) result }
    ensures comes { IfErr result ComesOfRemoving }
    ensures goes_on { IsTrue H.tells → TimePasses (H.world host.old) (H.world host.new) }
    ensures works { IsTrue H.tells → (table : JobTable) → IsCurrent store (H.world host.old).now.directory table
        → CommandWorks (AreRemoval numbers.now) table (H.world host.old) (H.world host.new) (cause_in result) }
{
    let mut made = 0;
    let removals = removals(alloc, numbers)?;
    let store = store.make_all(alloc, host, removals.as_slice(), &mut made)?;
    let forgettings = forgettings(alloc, &store)?;
    store.make_all(alloc, host, forgettings.as_slice(), &mut made)?;
    Ok(())
}

// The steps that take back the jobs of these numbers.
fn removals(alloc: Global, numbers: &[u32]) -> Result<Vec<Step>, AllocError>
    ensures { IfOk result (λ steps. steps.items ≡ removes numbers.now) }
{
    numbers
        .iter()
        .map(|number| Step::Remove(*number))
        .collect(alloc)
}

// The steps that forget what is too much.
fn forgettings(alloc: Global, store: &Store) -> Result<Vec<Step>, AllocError>
    ensures { IfOk result (λ steps. steps.items ≡ forget_steps (surplus store.now.table)) }
{
    let numbers = store.surplus(alloc)?;
    numbers
        .as_slice()
        .iter()
        .map(|number| Step::Forget(*number))
        .collect(alloc)
}
