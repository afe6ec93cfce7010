//! Lines that are put one after another.
ghost use Rattle.std.specs.Prelude.{◌≡◌, List, ℕ};
ghost use Rattle.tool_output.specs.Sinks.{sink_at};
ghost use Rattle.tool_output.specs.PutLines.{PutsLines, joined_lines};

use host_calls::{Bytes, Sink, SinkFault};
use std::alloc::Global;

/// What is known in a line, or in none.
pub trait PrintedLine {
    ghost line: { Self → List ℕ };

    /// Puts the line.
    fn put<O: Sink>(&self, alloc: Global, out: &mut O) -> Result<(), SinkFault>
        ensures made_as { (O.outlet out.new).made_as ≡ (O.outlet out.old).made_as }
        ensures puts { PutsLines O.tells (line self.now)
            (sink_at (O.content out.old) (O.outlet out.old)) (sink_at (O.content out.new) (O.outlet out.new)) result };
}

impl PrintedLine for Bytes {
    ghost line = { λ bytes. bytes };

    fn put<O: Sink>(&self, alloc: Global, out: &mut O) -> Result<(), SinkFault> {
        out.put(alloc, self.as_slice())
    }
}

/// Puts the lines, in order, up to one that could not be put.
pub fn put_lines<L: PrintedLine, O: Sink>(
    alloc: Global,
    lines: &[L],
    out: &mut O,
) -> Result<(), SinkFault>
    ensures made_as { (O.outlet out.new).made_as ≡ (O.outlet out.old).made_as }
    ensures puts { PutsLines O.tells (joined_lines L.line lines.now)
        (sink_at (O.content out.old) (O.outlet out.old)) (sink_at (O.content out.new) (O.outlet out.new)) result }
{
    for line in lines {
        line.put(alloc, out)?;
    }
    Ok(())
}
