//! The cause of a put.
ghost use Rattle.std.specs.Prelude.{◌≡◌};
ghost use Rattle.tool_output.specs.Causes.{cause_of_put};

use host_calls::SinkFault;
use listing_text::Cause;

/// The cause by what was put: all of it, or why not.
pub fn cause_of_put(put: Result<(), SinkFault>) -> Cause
    ensures { result ≡ cause_of_put put }
{
    match put {
        Ok(()) => Cause::Done,
        Err(SinkFault::Failed) => Cause::OutputFault,
        Err(SinkFault::Memory) => Cause::Memory,
    }
}
