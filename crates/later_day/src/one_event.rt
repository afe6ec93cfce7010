//! One event on a machine where mail is sent too, and a crontab kept.
ghost use Rattle.std.specs.Prelude.{◌≡◌, IfOk, IsTrue, OnErr};
ghost use Rattle.daemon_turn.specs.Kids.{AreChildren};
ghost use Rattle.host_calls.specs.Session.{IsOutside};
ghost use Rattle.mail_session.specs.PostState.{may_be_program};
ghost use Rattle.memory_host.specs.Host.{memory_session};
ghost use Rattle.later_day.specs.LaterEventEffects.{IsLaterEvent, IsLaterUnreported, LaterHappens};
ghost use Rattle.later_day.specs.LaterMachines.{later_machine};

use crate::day_event::day_event;
use crate::{Later, LaterEntry};
use cron_session::cron_session;
use daemon_turn::Daemon;
use mail_session::Post;
use memory_host::MemoryHost;
use std::alloc::{AllocError, Global};

/// Makes one event happen on the host, its daemon and its post.
pub(crate) fn one_later_event(
    alloc: Global,
    event: &Later,
    program: &str,
    host: &mut MemoryHost,
    daemon: &mut Daemon,
    post: &mut Post,
) -> Result<LaterEntry, AllocError>
    requires event { IsLaterEvent event.now }
    requires program { IsTrue (may_be_program program.now) }
    requires outside { IsOutside (memory_session host.old) }
    requires children { AreChildren (memory_session host.old).children daemon.old.kids }
    requires notices { AreChildren (memory_session host.old).children post.old.kids }
    requires of_program { post.old.program ≡ program.now }
    ensures happens { IfOk result (λ entry. LaterHappens event.now entry
        (later_machine host.old daemon.old post.old) (later_machine host.new daemon.new post.new)) }
    ensures unreported { OnErr result
        (IsLaterUnreported event.now (later_machine host.old daemon.old post.old) host.new) }
{
    match event {
        Later::Day(event) => {
            let report = day_event(alloc, event, program, host, daemon, post)?;
            Ok(LaterEntry::Day(report))
        }
        Later::Post => {
            let report = post.session(alloc, host);
            Ok(LaterEntry::Post(report))
        }
        Later::Cron {
            context,
            zone,
            entries,
            now,
        } => {
            let report = cron_session(alloc, host, context, zone, entries, *now);
            Ok(LaterEntry::Cron(report))
        }
    }
}
