//! The last line of serving.
ghost use Rattle.std.specs.Prelude.{◌≡◌};
ghost use Rattle.tool_output.specs.Sinks.{sink_at};
ghost use Rattle.serving.specs.Lines.{daemon_name};
ghost use Rattle.serving.specs.Serving.{SaysServeOutcome};

use crate::ServeOutcome;
use host_calls::Sink;
use listing_text::Cause;
use std::alloc::Global;
use tool_output::say_cause;

// The name of the daemon, as it begins its lines.
pub(crate) const DAEMON_NAME: &str = "atd";

// Says the last line, and answers the cause. The line of a turn was said after it.
pub(crate) fn say_serve_outcome<E: Sink>(alloc: Global, outcome: ServeOutcome, err: &mut E) -> Cause
    ensures made_as { (E.outlet err.new).made_as ≡ (E.outlet err.old).made_as }
    ensures says { SaysServeOutcome E.tells outcome
        (sink_at (E.content err.old) (E.outlet err.old)) (sink_at (E.content err.new) (E.outlet err.new)) result }
{
    match outcome {
        ServeOutcome::OfTurn(cause) => cause,
        ServeOutcome::Own(cause) => say_cause(alloc, DAEMON_NAME, cause, err),
    }
}
