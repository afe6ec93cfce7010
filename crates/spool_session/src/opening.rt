//! Opening the spool for a user: the lists of users, and then the recovery.
ghost use Rattle.std.specs.Prelude.{◌≡◌, IfErr, IfOk, IsTrue};
ghost use Rattle.host_calls.specs.Session.{CallsInside, IsInside};
ghost use Rattle.host_calls.specs.World.{TimePasses};
ghost use Rattle.listing_text.specs.declared.cause.Cause.TheVariants as cause;
ghost use Rattle.tool_output.specs.Causes.{error_of};
ghost use Rattle.tool_output.specs.declared.command_error.CommandError.{CommandError as Stop};
ghost use Rattle.command_rules.specs.Sessions.{IsNotOpened, IsStoreOpened};

use crate::lists::{are_permitting, read_lists};
use command_rules::CommandError;
use host_calls::Host;
use listing_text::Refusal;
use spool_model::UserName;
use spool_store::Store;
use std::alloc::Global;

/// The store, recovered, where the lists permit the user.
pub fn open_store<H: Host>(
    alloc: Global,
    host: &mut H,
    user: &UserName,
) -> Result<Store, CommandError>
    requires { IsInside (H.session host.old) }
    ensures inside { CallsInside (error_of cause.FileFault) (H.session host.old) (H.session host.new) result }
    ensures goes_on { IsTrue H.tells → TimePasses (H.world host.old) (H.world host.new) }
    ensures opened { IfOk result (IsStoreOpened H.tells user.now (H.world host.old) (H.world host.new)) }
    ensures not_opened { IfErr result (λ stopped.
        IsNotOpened H.tells user.now (H.world host.old) (H.world host.new) stopped.cause) }
{
    let lists = read_lists(alloc, host)?;
    if !are_permitting(&lists, user) {
        return Err(CommandError::refused(Refusal::NotAllowed));
    }
    // A user who may not use `at` has nothing in the directory settled or cleared.
    let store = Store::recover(alloc, host)?;
    Ok(store)
}
