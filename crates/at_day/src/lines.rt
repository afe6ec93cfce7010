//! The lines of a day.
ghost use Rattle.std.specs.Prelude.{◌≡◌, IfOk};
ghost use Rattle.at_day.specs.Lines.{count_line, day_lines};

use crate::Counts;
use host_calls::Bytes;
use std::alloc::{AllocError, Global};

/// The lines of a day of so many events, by what its directory counts.
pub(crate) fn day_lines(
    alloc: Global,
    events: u32,
    counts: &Counts,
) -> Result<Vec<Bytes>, AllocError>
    ensures { IfOk result (λ lines. lines.items ≡ day_lines events counts.now) }
{
    let mut lines = Vec::new(alloc);
    lines.push(count_line(alloc, "events", events)?)?;
    lines.push(count_line(alloc, "last", counts.last)?)?;
    lines.push(count_line(alloc, "pending", counts.pending)?)?;
    lines.push(count_line(alloc, "running", counts.running)?)?;
    lines.push(count_line(alloc, "removed", counts.removed)?)?;
    lines.push(count_line(alloc, "finished", counts.finished)?)?;
    lines.push(count_line(alloc, "not started", counts.not_started)?)?;
    lines.push(count_line(alloc, "interrupted", counts.interrupted)?)?;
    Ok(lines)
}

// A line that tells how many there are of something.
#[tactic(auto, unfolding(crate::specs::Lines::count_line))]
fn count_line(alloc: Global, what: &str, count: u32) -> Result<Bytes, AllocError>
    ensures { IfOk result (λ line. line ≡ count_line what.now count) }
{
    let line = format!(in alloc; "{what} {count}\n")?;
    Ok(Bytes::from(line.into_bytes()))
}
