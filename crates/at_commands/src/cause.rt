//! The cause of an end.
ghost use Rattle.std.specs.Prelude.{◌≡◌};
ghost use Rattle.tool_output.specs.Causes.{cause_in};

use command_rules::CommandError;
use listing_text::Cause;

// The cause of what was done, or stopped.
pub(crate) fn cause_of_command(done: Result<(), CommandError>) -> Cause
    ensures { result ≡ cause_in done }
{
    match done {
        Ok(()) => Cause::Done,
        Err(stopped) => stopped.cause,
    }
}
