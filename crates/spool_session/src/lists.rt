//! The lists of users.
ghost use Rattle.std.specs.Prelude.{◌≡◌, IfOk, IsTrue, option_copied};
ghost use Rattle.access_lists.specs.Access.{may_use};
ghost use Rattle.host_calls.specs.Session.{CallsInside, IsInside};
ghost use Rattle.host_calls.specs.World.{reading};
ghost use Rattle.spool_session.specs.Lists.{AreIn};

use access_lists::permits;
use command_rules::{allow_name, deny_name};
use host_calls::{Bytes, Host, HostFault};
use spool_model::UserName;
use std::alloc::Global;
use whole_file::content;

/// The texts of the lists of users, where they exist.
#[derive(Drop)]
pub(crate) struct Lists {
    pub allow: Option<Bytes>,
    pub deny: Option<Bytes>,
}

// Reads the lists of users.
pub(crate) fn read_lists<H: Host>(alloc: Global, host: &mut H) -> Result<Lists, HostFault>
    requires { IsInside (H.session host.old) }
    ensures inside { CallsInside HostFault.Failed (H.session host.old) (H.session host.new) result }
    ensures looks { IsTrue H.tells → H.world host.new ≡ H.world host.old }
    ensures texts { IsTrue H.tells → IfOk result (AreIn (reading (H.world host.old))) }
{
    let allow = content(alloc, host, &allow_name())?;
    let deny = content(alloc, host, &deny_name())?;
    Ok(Lists { allow, deny })
}

// Whether the lists permit the user.
pub(crate) fn are_permitting(lists: &Lists, user: &UserName) -> bool
    ensures { result ≡ may_use user.now lists.now.allow lists.now.deny }
{
    permits(user, list_text(&lists.allow), list_text(&lists.deny))
}

fn list_text(list: &Option<Bytes>) -> Option<&[u8]>
    ensures { option_copied result ≡ list.now }
{
    match list {
        Some(bytes) => Some(bytes.as_slice()),
        None => None,
    }
}
