//! One event of a day, on a machine that has a post too.
ghost use Rattle.std.specs.Prelude.{◌≡◌, true, IfOk, IsTrue, OnErr, OnOk};
ghost use Rattle.daemon_turn.specs.Kids.{AreChildren};
ghost use Rattle.at_day.specs.EventsDays.{is_day_event};
ghost use Rattle.host_calls.specs.Session.{IsOutside};
ghost use Rattle.mail_session.specs.PostState.{may_be_program};
ghost use Rattle.memory_host.specs.Host.{memory_session};
ghost use Rattle.later_day.specs.LaterEventEffects.{HappensOnDay, IsPostAfter, IsUnreportedOnDay};
ghost use Rattle.later_day.specs.LaterMachines.{later_machine};

use at_day::{Event, EventReport, one_event};
use daemon_turn::Daemon;
use mail_session::Post;
use memory_host::MemoryHost;
use std::alloc::{AllocError, Global};

/// Makes one event of a day happen on the host and its daemon. Where that is a reboot, the post is made anew.
pub(crate) fn day_event(
    alloc: Global,
    event: &Event,
    program: &str,
    host: &mut MemoryHost,
    daemon: &mut Daemon,
    post: &mut Post,
) -> Result<EventReport, AllocError>
    requires of_day { is_day_event event.now ≡ true }
    requires program { IsTrue (may_be_program program.now) }
    requires outside { IsOutside (memory_session host.old) }
    requires children { AreChildren (memory_session host.old).children daemon.old.kids }
    requires of_program { post.old.program ≡ program.now }
    ensures happens { IfOk result (λ report. HappensOnDay event.now report
        (later_machine host.old daemon.old post.old) (later_machine host.new daemon.new post.new)) }
    ensures unreported { OnErr result
        (IsUnreportedOnDay event.now (later_machine host.old daemon.old post.old) host.new) }
{
    let report = one_event(alloc, event, host, daemon)?;
    renew_post(alloc, event, program, post)?;
    Ok(report)
}

// The post after an event of a day.
fn renew_post(
    alloc: Global,
    event: &Event,
    program: &str,
    post: &mut Post,
) -> Result<(), AllocError>
    requires program { IsTrue (may_be_program program.now) }
    requires of_program { post.old.program ≡ program.now }
    ensures { OnOk result (IsPostAfter event.now post.old post.new) }
{
    match event {
        Event::Command { .. } => {}
        Event::Turn { .. } => {}
        Event::Reboot { .. } => {
            *post = Post::new(alloc, program)?;
        }
    }
    Ok(())
}
