//! A notice is sent.
ghost use Rattle.std.specs.Prelude.{IsSome, IsTrue};
ghost use Rattle.std.specs.FinMap as map;
ghost use Rattle.host_calls.specs.Session.{IsInside};
ghost use Rattle.host_calls.specs.World.{reading};
ghost use Rattle.mail_notes.specs.Names.{notice_file};
ghost use Rattle.mail_session.specs.inside.SentNotice.{HandsNoticeOver};

use host_calls::{Child, Host, HostFault, StartFault};
use mail_notes::{NOTICE_NICE, notice_name};
use std::alloc::Global;

// Hands the notice of the number over. No child where the host could start none.
pub(crate) fn send_notice<H: Host>(
    alloc: Global,
    host: &mut H,
    number: u32,
) -> Result<Option<Child>, HostFault>
    requires inside { IsInside (H.session host.old) }
    requires held { IsTrue H.tells → IsSome (map.get (reading (H.world host.old)) (notice_file number)) }
    ensures { HandsNoticeOver H.tells (H.session host.old) (H.session host.new)
        (H.world host.old) (H.world host.new) number result }
{
    match host.start(alloc, number, &notice_name(number), NOTICE_NICE) {
        Ok(child) => Ok(Some(child)),
        Err(StartFault::Failed) => Ok(None),
        Err(StartFault::Memory) => Err(HostFault::Memory),
    }
}
