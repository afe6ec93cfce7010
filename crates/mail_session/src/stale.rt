//! Files of mail that are left over.
ghost use Rattle.std.specs.Prelude.{◌≡◌, IfOk, IsTrue};
ghost use Rattle.daemon_turn.specs.Decisions.{has_kid};
ghost use Rattle.host_calls.specs.Session.{CallsInside, IsInside};
ghost use Rattle.host_calls.specs.World.{reading};
ghost use Rattle.mail_session.specs.Stale.{is_stale, is_notice_without_kid, stale_names};

use daemon_turn::Kid;
use host_calls::{Host, HostFault, Name};
use mail_notes::{mail_temp_name, notice_number};
use std::alloc::Global;

/// The names of the files of mail that are left over, where these are the children: one that was being made, and the
/// notices that belong to no child.
pub fn stale_names<H: Host>(
    alloc: Global,
    host: &mut H,
    kids: &[Kid],
) -> Result<Vec<Name>, HostFault>
    requires { IsInside (H.session host.old) }
    ensures inside { CallsInside HostFault.Failed (H.session host.old) (H.session host.new) result }
    ensures looks { IsTrue H.tells → H.world host.new ≡ H.world host.old }
    ensures names { IsTrue H.tells
        → IfOk result (λ names. names.items ≡ stale_names kids.now (reading (H.world host.old))) }
{
    let mut names = host.names(alloc)?;
    names.retain(|name| is_stale(kids, name));
    Ok(names)
}

fn is_stale(kids: &[Kid], name: &Name) -> bool
    ensures { result ≡ is_stale kids.now name.now }
{
    *name == mail_temp_name() || is_notice_without_kid(kids, notice_number(name))
}

// Whether the notice of the number belongs to no child.
fn is_notice_without_kid(kids: &[Kid], number: Option<u32>) -> bool
    ensures { result ≡ is_notice_without_kid kids.now number }
{
    match number {
        Some(number) => !has_kid(kids, number),
        None => false,
    }
}

fn has_kid(kids: &[Kid], number: u32) -> bool
    ensures { result ≡ has_kid kids.now number }
{
    kids.iter().any(|kid| kid.number == number)
}
