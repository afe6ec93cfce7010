//! Drawing the next number.
ghost use Rattle.std.specs.Prelude.{◌≡◌, ◌<◌, ◌+◌, IfOk, IsTrue, OnOk};
ghost use Rattle.host_calls.specs.Directory.{IsInNoImage};
ghost use Rattle.host_calls.specs.Session.{CallsInside, IsInside};
ghost use Rattle.whole_file.specs.Others.{ChangesFiles};
ghost use Rattle.whole_file.specs.Temporary.{temporary_file};
ghost use Rattle.spool_model.specs.declared.number.TheConstants.{LAST_NUMBER};
ghost use Rattle.sequence_file.specs.Draw.{EachGivesNumber, IsDrawing, IsNumberDrawn};

use crate::names::sequence_name;
use crate::text::sequence_file_text;
use host_calls::{Host, HostFault};
use std::alloc::Global;
use whole_file::{place, temporary_name};

/// Draws the number after the last one. Where the call fails, or a crash cuts it short, the number may be
/// drawn or not.
pub fn draw<H: Host>(alloc: Global, host: &mut H, last: u32) -> Result<u32, HostFault>
    requires inside { IsInside (H.session host.old) }
    requires few { last < LAST_NUMBER }
    requires last { IsTrue H.tells → EachGivesNumber last (H.world host.old).now.directory }
    requires no_temp { IsTrue H.tells → IsInNoImage (H.world host.old).now.directory temporary_file }
    ensures inside { CallsInside HostFault.Failed (H.session host.old) (H.session host.new) result }
    ensures next { IfOk result (λ number. number ≡ last + 1) }
    ensures files { IsTrue H.tells
        → ChangesFiles (IsDrawing last (H.world host.old).now.directory) (H.world host.old) (H.world host.new) }
    ensures drawn { IsTrue H.tells → OnOk result (IsNumberDrawn (last + 1)
        (H.world host.old).now.directory (H.world host.new).now.directory) }
{
    let next = last + 1;
    place(
        alloc,
        host,
        &temporary_name(),
        &sequence_name(),
        &sequence_file_text(next),
    )?;
    Ok(next)
}
