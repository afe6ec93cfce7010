//! The lists of the machine.
ghost use Rattle.std.specs.Prelude.{◌≡◌, option_copied};
ghost use Rattle.caller_environment.specs.MachineLists.{may_use_machine};

use access_lists::permits;
use spool_model::UserName;

/// Whether the user may use at on this machine, given the texts of /etc/at.allow and /etc/at.deny where they exist.
pub fn may_use_machine(user: &UserName, allow: Option<&[u8]>, deny: Option<&[u8]>) -> bool
    ensures { result ≡ may_use_machine user.now (option_copied allow.entry) (option_copied deny.entry) }
{
    match (allow, deny) {
        (None, None) => true,
        _ => permits(user, allow, deny),
    }
}
