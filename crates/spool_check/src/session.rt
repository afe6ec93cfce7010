//! Looking at the directory that is checked.
ghost use Rattle.std.specs.Prelude.{◌≡◌, IfErr, IfOk};
ghost use Rattle.tool_output.specs.Outside.{directory_at};
ghost use Rattle.tool_output.specs.Causes.{cause_in};
ghost use Rattle.host_calls.specs.Session.{IsLeft, IsOutside};
ghost use Rattle.spool_check.specs.inside.CheckParts.{IsDiagnosisCause, Looks, SessionFaultsRose};

use host_calls::Host;
use spool_faults::{Diagnosis, diagnose};
use std::alloc::Global;
use tool_output::CommandError;

// What is found in the directory, in a session of its own.
pub(crate) fn look<H: Host>(alloc: Global, from: &mut H) -> Result<Diagnosis, CommandError>
    requires { IsOutside (H.session from.old) }
    ensures left { IsLeft (H.session from.old) (H.session from.new) }
    ensures comes { IfErr result (λ stopped. IsDiagnosisCause stopped.cause) }
    ensures rises { SessionFaultsRose (H.session from.old) (H.session from.new) (cause_in result) }
    ensures looks { Looks (directory_at H.Host from.old) (directory_at H.Host from.new)
        (λ faults. IfOk result (λ diagnosis. diagnosis.faults ≡ faults)) }
{
    from.enter(alloc)?;
    let found = diagnose(alloc, from);
    from.leave();
    Ok(found?)
}
