//! The mark of a directory is read.
ghost use Rattle.std.specs.Prelude.{◌≡◌, ◌≤◌, IfErr, IfOk, IfSome, IsTrue};
ghost use Rattle.std.specs.FinMap as map;
ghost use Rattle.host_calls.specs.ClockRange.{IsClockMinute};
ghost use Rattle.host_calls.specs.Damages.{IfDamaged};
ghost use Rattle.host_calls.specs.Session.{CallsInside, IsInside};
ghost use Rattle.host_calls.specs.World.{reading};
ghost use Rattle.host_calls.specs.StoreFaults.{IsReadingFault};
ghost use Rattle.cron_session.specs.Mark.{IsMark, IsMarkDamage};
ghost use Rattle.cron_session.specs.MarkNames.{mark_file};

use crate::{mark_name, minute_in};
use host_calls::{Host, StoreFault};
use std::alloc::Global;
use whole_file::content;

/// The minute of the directory's mark, if there is one. Another text of its file is damaged at the length of its
/// longest start with which the text of some mark starts too.
pub fn read_cron_mark<H: Host>(alloc: Global, host: &mut H) -> Result<Option<u32>, StoreFault>
    requires { IsInside (H.session host.old) }
    ensures inside { CallsInside StoreFault.FileFault (H.session host.old) (H.session host.new) result }
    ensures of_reading { IfErr result IsReadingFault }
    ensures looks { IsTrue H.tells → H.world host.new ≡ H.world host.old }
    ensures minute { IfOk result (λ marked. IfSome marked IsClockMinute) }
    ensures mark { IsTrue H.tells → IfOk result (IsMark (map.get (reading (H.world host.old)) mark_file)) }
    ensures damaged { IsTrue H.tells → IfDamaged StoreFault.Damaged
        (IsMarkDamage (map.get (reading (H.world host.old)) mark_file)) result }
{
    let Some(bytes) = content(alloc, host, &mark_name())? else {
        return Ok(None);
    };
    let minute = minute_in(bytes.as_slice())?;
    Ok(Some(minute))
}
