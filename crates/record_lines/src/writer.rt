//! The writer of a file of records.
ghost use Rattle.std.specs.Prelude.{IfOk};
ghost use Rattle.std.specs.List.{All};
ghost use Rattle.record_lines.specs.Lines.{AreSpelled, CanBeSpelled};

use crate::LineRecord;
use host_calls::Bytes;
use std::alloc::{AllocError, Global};

/// The lines of these records, in order, each with its newline.
pub fn lines_text<R: LineRecord>(alloc: Global, records: &[R]) -> Result<Bytes, AllocError>
    requires { All (CanBeSpelled R.spells) records.now }
    ensures { IfOk result (λ text. AreSpelled R.spells text records.now) }
{
    let mut text = Vec::new(alloc);
    for one in records {
        one.write(&mut text)?;
        text.push(b'\n')?;
    }
    Ok(Bytes::from(text))
}
