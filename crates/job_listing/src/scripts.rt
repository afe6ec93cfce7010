//! The scripts of live jobs, put one after another.
ghost use Rattle.std.specs.Prelude.{◌≡◌, [], ◌∷◌, All, IsTrue};
ghost use Rattle.host_calls.specs.Session.{CallsInside, IsInside};
ghost use Rattle.step_runs.specs.Current.{IsCurrent};
ghost use Rattle.listing_text.specs.declared.cause.Cause.TheVariants as cause;
ghost use Rattle.spool_model.specs.JobTable.{JobTable};
ghost use Rattle.spool_store.specs.Listed.{IsLive};
ghost use Rattle.tool_output.specs.Causes.{error_of};
ghost use Rattle.tool_output.specs.Sinks.{sink_at};
ghost use Rattle.job_listing.specs.Scripts.{PutsScripts};

use command_rules::CommandError;
use host_calls::{Host, Sink};
use spool_store::Store;
use std::alloc::Global;

/// Puts the scripts of the live jobs of these numbers, in order. Each is read and put before the next is read, so that
/// no more than one is kept in memory.
pub fn put_scripts<H: Host, O: Sink>(
    alloc: Global,
    host: &mut H,
    store: &Store,
    numbers: &[u32],
    out: &mut O,
) -> Result<(), CommandError>
    requires inside { IsInside (H.session host.old) }
    requires live { All (IsLive store.now.table) numbers.now }
    requires current { IsTrue H.tells → (table : JobTable)
        × IsCurrent store.now (H.world host.old).now.directory table }
    ensures inside { CallsInside (error_of cause.FileFault) (H.session host.old) (H.session host.new) result }
    ensures made_as { (O.outlet out.new).made_as ≡ (O.outlet out.old).made_as }
    ensures puts { PutsScripts H.tells O.tells store.now numbers.now (H.world host.old) (H.world host.new)
        (sink_at (O.content out.old) (O.outlet out.old)) (sink_at (O.content out.new) (O.outlet out.new)) result }
{
    for number in numbers {
        put_script(alloc, host, store, *number, out)?;
    }
    Ok(())
}

// Puts the script of the live job of this number.
fn put_script<H: Host, O: Sink>(
    alloc: Global,
    host: &mut H,
    store: &Store,
    number: u32,
    out: &mut O,
) -> Result<(), CommandError>
    requires inside { IsInside (H.session host.old) }
    requires live { IsLive store.now.table number }
    requires current { IsTrue H.tells → (table : JobTable)
        × IsCurrent store.now (H.world host.old).now.directory table }
    ensures inside { CallsInside (error_of cause.FileFault) (H.session host.old) (H.session host.new) result }
    ensures made_as { (O.outlet out.new).made_as ≡ (O.outlet out.old).made_as }
    ensures puts { PutsScripts H.tells O.tells store.now (number ∷ []) (H.world host.old) (H.world host.new)
        (sink_at (O.content out.old) (O.outlet out.old)) (sink_at (O.content out.new) (O.outlet out.new)) result }
{
    let script = store.script(alloc, host, number)?;
    out.put(alloc, script.as_slice())?;
    Ok(())
}
