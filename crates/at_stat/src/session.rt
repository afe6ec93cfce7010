//! One session, which looks at the spool.
ghost use Rattle.std.specs.Prelude.{IfErr, IsTrue};
ghost use Rattle.tool_output.specs.Causes.{error_of};
ghost use Rattle.host_calls.specs.Session.{CallsInside, IsInside, IsOutside};
ghost use Rattle.host_calls.specs.World.{TimePasses};
ghost use Rattle.listing_text.specs.declared.cause.Cause.TheVariants as cause;
ghost use Rattle.spool_session.specs.Sessions.{ComesOfSession};
ghost use Rattle.at_stat.specs.OneLook.{LooksAtJobs, LooksInside, stat_spool_at};

use crate::checks::stat_refusal;
use at_words::Filter;
use host_calls::Host;
use spool_model::UserName;
use spool_session::{in_command_session, open_store};
use spool_store::Store;
use std::alloc::Global;
use tool_output::CommandError;

// The store, recovered in a session of its own, where neither the lists nor the table refuse the user.
pub(crate) fn look_at_jobs<H: Host>(
    alloc: Global,
    user: &UserName,
    which: &Filter,
    host: &mut H,
) -> Result<Store, CommandError>
    requires { IsOutside (H.session host.old) }
    ensures { LooksAtJobs H.tells H.alone user.now which.now (stat_spool_at (H.session host.old) (H.world host.old))
        (stat_spool_at (H.session host.new) (H.world host.new)) result }
{
    in_command_session(
        alloc,
        host,
        &mut |host| { look_inside(alloc, user, which, host) },
    )
}

// The same, within the session.
fn look_inside<H: Host>(
    alloc: Global,
    user: &UserName,
    which: &Filter,
    host: &mut H,
) -> Result<Store, CommandError>
    requires { IsInside (H.session host.old) }
    ensures inside { CallsInside (error_of cause.FileFault) (H.session host.old) (H.session host.new) result }
    ensures comes { IfErr result ComesOfSession }
    ensures goes_on { IsTrue H.tells → TimePasses (H.world host.old) (H.world host.new) }
    ensures looks { LooksInside H.tells user.now which.now (H.world host.old) (H.world host.new) result }
{
    let store = open_store(alloc, host, user)?;
    match stat_refusal(&store, user, which) {
        Some(refusal) => Err(CommandError::refused(refusal)),
        None => Ok(store),
    }
}
