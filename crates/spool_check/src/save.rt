//! Saving what can be saved of the directory that is checked.
ghost use Rattle.std.specs.Prelude.{◌≡◌, true, IfErr, IsTrue};
ghost use Rattle.tool_output.specs.Outside.{directory_at, stream_at};
ghost use Rattle.tool_output.specs.Causes.{cause_in, error_of};
ghost use Rattle.host_calls.specs.Session.{IsInside, IsLeft, IsOutside, StaysInside};
ghost use Rattle.host_calls.specs.World.{reading};
ghost use Rattle.spool_check.specs.CheckOutcome.{Checks, IsChecked, Writes};
ghost use Rattle.spool_check.specs.inside.CheckParts.{IsSalvageCause, RisesOfBoth, cause_by, salvage_cause};
ghost use Rattle.spool_check.specs.Outside.{HasRisenInEither, directories_at};
ghost use Rattle.spool_faults.specs.Plan.{IsPlanOf};

use crate::lines::report_faults;
use crate::{SalvageFault, fill_target};
use host_calls::{Host, Sink};
use listing_text::{Cause, Refusal};
use spool_faults::{SalvagePlan, diagnose};
use std::alloc::Global;
use tool_output::CommandError;

// Tells the faults of the directory, and then writes what is saved of it into the new one. The lines come first, so
// that nothing is written where they could not be put.
pub(crate) fn check_and_save<H: Host, G: Host, O: Sink>(
    alloc: Global,
    from: &mut H,
    to: &mut G,
    out: &mut O,
) -> Result<Cause, CommandError>
    requires from { IsOutside (H.session from.old) }
    requires to { IsOutside (G.session to.old) }
    ensures from { IsLeft (H.session from.old) (H.session from.new) }
    ensures to { IsLeft (G.session to.old) (G.session to.new) }
    ensures made_as { (O.outlet out.new).made_as ≡ (O.outlet out.old).made_as }
    ensures risen { HasRisenInEither (directories_at H.Host G.Host O.Sink from.old to.old out.old)
        (directories_at H.Host G.Host O.Sink from.new to.new out.new) (cause_by result) }
    ensures checked { IsChecked true (directories_at H.Host G.Host O.Sink from.old to.old out.old)
        (directories_at H.Host G.Host O.Sink from.new to.new out.new) (cause_by result) }
{
    from.enter(alloc)?;
    let ended = tell_and_save(alloc, from, to, out);
    from.leave();
    ended
}

// The same within a session of the directory that is checked.
fn tell_and_save<H: Host, G: Host, O: Sink>(
    alloc: Global,
    from: &mut H,
    to: &mut G,
    out: &mut O,
) -> Result<Cause, CommandError>
    requires from { IsInside (H.session from.old) }
    requires to { IsOutside (G.session to.old) }
    ensures from { StaysInside (H.session from.old) (H.session from.new) }
    ensures to { IsLeft (G.session to.old) (G.session to.new) }
    ensures made_as { (O.outlet out.new).made_as ≡ (O.outlet out.old).made_as }
    ensures risen { HasRisenInEither (directories_at H.Host G.Host O.Sink from.old to.old out.old)
        (directories_at H.Host G.Host O.Sink from.new to.new out.new) (cause_by result) }
    ensures checks { Checks true H.tells (H.world from.old) (H.world from.new)
        (directory_at G.Host to.old) (directory_at G.Host to.new)
        (stream_at O.Sink out.old) (stream_at O.Sink out.new) (cause_by result) }
{
    let found = diagnose(alloc, from)?;
    let verdict = report_faults(alloc, found.faults.as_slice(), out)?;
    save(alloc, from, to, &found.plan)?;
    Ok(verdict)
}

// Writes what is saved by the plan into the new directory, in a session of its own.
fn save<H: Host, G: Host>(
    alloc: Global,
    from: &mut H,
    to: &mut G,
    plan: &SalvagePlan,
) -> Result<(), CommandError>
    requires from { IsInside (H.session from.old) }
    requires to { IsOutside (G.session to.old) }
    requires plan { IsTrue H.tells → IsPlanOf (reading (H.world from.old))
        plan.now.names.items plan.now.journal.items plan.now.sequence.items }
    ensures from { StaysInside (H.session from.old) (H.session from.new) }
    ensures to { IsLeft (G.session to.old) (G.session to.new) }
    ensures looks { IsTrue H.tells → H.world from.new ≡ H.world from.old }
    ensures comes { IfErr result (λ stopped. IsSalvageCause stopped.cause) }
    ensures rises { RisesOfBoth (H.session from.old) (H.session from.new)
        (G.session to.old) (G.session to.new) (cause_in result) }
    ensures saves { IsTrue H.tells → Writes (reading (H.world from.old))
        (directory_at G.Host to.old) (directory_at G.Host to.new) (cause_in result) }
{
    to.enter(alloc)?;
    let filled = fill_target(alloc, from, to, plan);
    to.leave();
    match filled {
        Ok(()) => Ok(()),
        Err(fault) => Err(error_of_salvage(fault)),
    }
}

fn error_of_salvage(fault: SalvageFault) -> CommandError
    ensures { result ≡ error_of (salvage_cause fault) }
{
    let cause = match fault {
        SalvageFault::FromFailed | SalvageFault::ToFailed => Cause::FileFault,
        SalvageFault::NotEmpty => Cause::Refused(Refusal::TargetNotEmpty),
        SalvageFault::Memory => Cause::Memory,
    };
    CommandError { cause }
}
