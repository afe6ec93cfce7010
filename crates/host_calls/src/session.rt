//! A session round the work that is done in it.
ghost use Rattle.host_calls.specs.Session.{IsOutside};
ghost use Rattle.host_calls.specs.SessionWork.{EndsSession, MayWork, StaysOn};

use crate::{EnterFault, Host};
use std::alloc::Global;

/// Does the work within a session of its own, and answers what it answered, or why the session could not begin.
pub fn in_session<H: Host, T, F: FnMut(&mut H) -> T>(
    alloc: Global,
    host: &mut H,
    work: &mut F,
) -> Result<T, EnterFault>
    requires outside { IsOutside (H.session host.old) }
    requires may { MayWork H.Host F.FnMut work.old host.old }
    requires stays { StaysOn H.Host F.FnMut work.old host.old }
    ensures ends { EndsSession H.Host F.FnMut work.old work.new host.old host.new result }
{
    host.enter(alloc)?;
    let answer = work(host);
    host.leave();
    Ok(answer)
}
