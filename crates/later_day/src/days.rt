//! A day on which mail is sent too: events on one machine, one after the other.
ghost use Rattle.std.specs.Prelude.{◌≡◌, All, IfOk, IsTrue, OnErr};
ghost use Rattle.host_calls.specs.Session.{IsOutside};
ghost use Rattle.mail_session.specs.PostState.{may_be_program, new_post};
ghost use Rattle.memory_host.specs.Host.{memory_session};
ghost use Rattle.later_day.specs.LaterDays.{IsLaterDay, IsLaterDayCut};
ghost use Rattle.later_day.specs.LaterEventEffects.{IsLaterEvent};
ghost use Rattle.later_day.specs.LaterMachines.{first_later_machine};

use crate::one_event::one_later_event;
use crate::{Later, LaterEntry, LaterReport};
use at_day::{INTERVAL, LIMIT};
use daemon_turn::Daemon;
use mail_session::Post;
use memory_host::MemoryHost;
use std::alloc::{AllocError, Global};

/// Makes the events happen, one after the other, with a daemon that has no children at first, and a post that has none,
/// for this mail program.
pub fn later_day(
    alloc: Global,
    events: &[Later],
    program: &str,
    host: &mut MemoryHost,
) -> Result<LaterReport, AllocError>
    requires events { All IsLaterEvent events.now }
    requires program { IsTrue (may_be_program program.now) }
    requires outside { IsOutside (memory_session host.old) }
    ensures outside { IsOutside (memory_session host.new) }
    ensures day { IfOk result (λ report.
        IsLaterDay events.now report (first_later_machine host.old program.now) host.new) }
    ensures cut { OnErr result (IsLaterDayCut events.now (first_later_machine host.old program.now) host.new) }
{
    let mut post = Post::new(alloc, program)?;
    let entries = later_entries(alloc, events, program, host, &mut post)?;
    Ok(LaterReport::from(entries))
}

// The entries of the events.
fn later_entries(
    alloc: Global,
    events: &[Later],
    program: &str,
    host: &mut MemoryHost,
    post: &mut Post,
) -> Result<Vec<LaterEntry>, AllocError>
    requires events { All IsLaterEvent events.now }
    requires program { IsTrue (may_be_program program.now) }
    requires outside { IsOutside (memory_session host.old) }
    requires post { post.old ≡ new_post program.now }
    ensures outside { IsOutside (memory_session host.new) }
    ensures day { IfOk result (λ entries.
        IsLaterDay events.now entries.items (first_later_machine host.old program.now) host.new) }
    ensures cut { OnErr result (IsLaterDayCut events.now (first_later_machine host.old program.now) host.new) }
{
    let mut daemon = Daemon::new(alloc, LIMIT, INTERVAL);
    let mut entries = Vec::new(alloc);
    for event in events {
        // Room comes first, so that each event that happens can be reported.
        entries.reserve(1)?;
        let entry = one_later_event(alloc, event, program, host, &mut daemon, post)?;
        entries.push_reserved(entry);
    }
    Ok(entries)
}
