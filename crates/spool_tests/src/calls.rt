//! A draw on a directory that was settled just before.
ghost use Rattle.host_calls.specs.Session.{IsInside, StaysInside};

use host_calls::Host;
use sequence_file::{SequenceFault, draw, last};
use spool_model::LAST_NUMBER;
use std::alloc::Global;
use whole_file::{content, temporary_name};

// Draws the number after the last one, unless a file that was being made is still there.
pub(crate) fn draw_next<H: Host>(alloc: Global, host: &mut H) -> Result<Option<u32>, SequenceFault>
    requires { IsInside (H.session host.old) }
    ensures { StaysInside (H.session host.old) (H.session host.new) }
{
    host.settle(alloc)?;
    match content(alloc, host, &temporary_name())? {
        Some(_) => Ok(None),
        None => {
            let number = last(alloc, host)?;
            if number >= LAST_NUMBER {
                return Ok(None);
            }
            Ok(Some(draw(alloc, host, number)?))
        }
    }
}
