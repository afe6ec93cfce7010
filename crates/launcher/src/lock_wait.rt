//! How a tool waits for a spool that another program uses.
ghost use Rattle.system_calls.specs.Calls.{Continues};

use system_calls::System;
use unix_host::Waits;

/// How the tools wait.
pub fn lock_wait<S: System>(system: &mut S) -> Waits
    ensures { Continues (S.trace system.old) (S.trace system.new) }
{
    if system.is_terminal() {
        Waits::NappingOnTerminal
    } else {
        Waits::Napping
    }
}
