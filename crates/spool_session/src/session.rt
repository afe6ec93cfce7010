//! The session of a command, round its work.
ghost use Rattle.host_calls.specs.Session.{IsOutside};
ghost use Rattle.tool_output.specs.Causes.{cause_in};
ghost use Rattle.spool_session.specs.Sessions.{EndsCommandSession, HasRisenIn, IsWork, MayWorkInside, StaysQuiet};

use command_rules::CommandError;
use host_calls::Host;
use std::alloc::Global;

/// Does the work of a command within a session of its own, and answers what it answered, or why the session could not
/// begin.
pub fn in_command_session<H: Host, T, F: FnMut(&mut H) -> Result<T, CommandError>>(
    alloc: Global,
    host: &mut H,
    work: &mut F,
) -> Result<T, CommandError>
    requires outside { IsOutside (H.session host.old) }
    requires may { MayWorkInside H.Host F.FnMut work.old }
    requires works { IsWork H.Host F.FnMut work.old }
    ensures quiet { StaysQuiet H.Host host.old host.new }
    ensures faults { HasRisenIn H.Host host.old host.new (cause_in result) }
    ensures ends { EndsCommandSession H.Host F.FnMut work.old work.new host.old host.new result }
{
    let answer = host_calls::in_session(alloc, host, work)?;
    answer
}
