//! Paths that are joined from parts.
ghost use Rattle.std.specs.Prelude.{◌≡◌, ◌++◌, IfOk};

use host_calls::Text;
use std::alloc::{AllocError, Global};

/// One text after another.
pub(crate) fn joined_texts(alloc: Global, start: &str, rest: &str) -> Result<Text, AllocError>
    ensures { IfOk result (λ path. path ≡ start.now ++ rest.now) }
{
    let mut path = String::from_str(alloc, start)?;
    path.push_str(rest)?;
    Ok(Text::from(path))
}
