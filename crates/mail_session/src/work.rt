//! The work of a session of mail.
ghost use Rattle.std.specs.Prelude.{◌≡◌, [], IsTrue};
ghost use Rattle.host_calls.specs.Directory.{IsInNoImage};
ghost use Rattle.host_calls.specs.Session.{IsInside};
ghost use Rattle.daemon_turn.specs.Kids.{AreChildren};
ghost use Rattle.mail_notes.specs.Names.{mail_temp};
ghost use Rattle.mail_session.specs.inside.SessionWork.{RunsPlan, Makes, MayRunPlan, MailWorks};

use crate::ask::ask_kids;
use crate::note_lines::note_news;
use crate::plan::{MailPlan, mail_plan};
use crate::post::post_all;
use daemon_turn::Kid;
use host_calls::{Host, HostFault};
use spool_store::StoreFault;
use std::alloc::Global;
use whole_file::clear;

// Makes the steps of a session, with the children that there are, and keeps the numbers of the notices that were
// sent.
pub(crate) fn mail_session_body<H: Host>(
    alloc: Global,
    host: &mut H,
    program: &[u8],
    kids: &mut Vec<Kid>,
    sent: &mut Vec<u32>,
) -> Result<(), StoreFault>
    requires inside { IsInside (H.session host.old) }
    requires children { AreChildren (H.session host.old).children kids.old.items }
    requires none { sent.old.items ≡ [] }
    ensures { MailWorks H.tells
        (record {
          session = H.session host.old;
          world = H.world host.old;
          post = record { program = program.now; kids = kids.old.items };
        })
        (record {
          session = H.session host.new;
          world = H.world host.new;
          post = record { program = program.now; kids = kids.new.items };
        })
        sent.new.items result }
{
    let mut plan = mail_plan(alloc, host, kids.as_slice())?;
    run_plan(alloc, host, program, &mut plan, kids, sent)?;
    Ok(())
}

// Removes the files that are left over, and makes the steps.
fn run_plan<H: Host>(
    alloc: Global,
    host: &mut H,
    program: &[u8],
    plan: &mut MailPlan,
    kids: &mut Vec<Kid>,
    sent: &mut Vec<u32>,
) -> Result<(), HostFault>
    requires inside { IsInside (H.session host.old) }
    requires may { IsTrue H.tells → MayRunPlan (H.world host.old) kids.old.items plan.old }
    requires children { AreChildren (H.session host.old).children kids.old.items }
    ensures { RunsPlan program.now H.tells (H.session host.old) (H.session host.new)
        (H.world host.old) (H.world host.new) plan.old kids.old.items kids.new.items
        sent.old.items sent.new.items result }
{
    clear(alloc, host, plan.stale.as_slice())?;
    make_steps(alloc, host, program, plan, kids, sent)
}

// Polls the children, notes the new jobs, and makes what is due.
fn make_steps<H: Host>(
    alloc: Global,
    host: &mut H,
    program: &[u8],
    plan: &mut MailPlan,
    kids: &mut Vec<Kid>,
    sent: &mut Vec<u32>,
) -> Result<(), HostFault>
    requires inside { IsInside (H.session host.old) }
    requires no_temp { IsTrue H.tells → IsInNoImage (H.world host.old).now.directory mail_temp }
    requires children { AreChildren (H.session host.old).children kids.old.items }
    ensures { Makes program.now H.tells (H.session host.old) (H.session host.new)
        (H.world host.old) (H.world host.new) plan.old kids.old.items kids.new.items
        sent.old.items sent.new.items result }
{
    ask_kids(alloc, host, kids)?;
    note_news(alloc, host, plan.new_jobs.as_slice(), plan.text.as_slice())?;
    post_all(
        alloc,
        host,
        program,
        plan.due_notices.as_slice(),
        &mut plan.text,
        kids,
        sent,
    )
}
