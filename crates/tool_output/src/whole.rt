//! A text that is put at once.
ghost use Rattle.std.specs.Prelude.{◌≡◌};
ghost use Rattle.host_calls.specs.Causes.{Rose};
ghost use Rattle.host_calls.specs.Session.{IsOutside};
ghost use Rattle.tool_output.specs.Sinks.{sink_at};
ghost use Rattle.tool_output.specs.Whole.{PutsWhole};

use crate::cause_of_put;
use host_calls::{Host, Sink};
use listing_text::Cause;
use std::alloc::Global;

/// Puts the text, at once, outside of a session, so that a slow reader does not hold the lock; nothing where it is empty,
/// so that a sink that fails is not requested nothing.
pub fn put_whole<H: Host, O: Sink>(alloc: Global, host: &H, text: &[u8], out: &mut O) -> Cause
    requires { IsOutside (H.session host.now) }
    ensures made_as { (O.outlet out.new).made_as ≡ (O.outlet out.old).made_as }
    ensures output_fault { result ≡ Cause.OutputFault
        → Rose (O.outlet out.old).sink_faults (O.outlet out.new).sink_faults }
    ensures puts { PutsWhole O.tells text.now (sink_at (O.content out.old) (O.outlet out.old))
        (sink_at (O.content out.new) (O.outlet out.new)) result }
{
    if text.is_empty() {
        return Cause::Done;
    }
    cause_of_put(out.put(alloc, text))
}
