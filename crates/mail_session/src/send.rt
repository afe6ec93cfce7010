//! One notice is sent.
ghost use Rattle.std.specs.Prelude.{IsTrue};
ghost use Rattle.host_calls.specs.Directory.{IsInNoImage};
ghost use Rattle.host_calls.specs.Session.{IsInside};
ghost use Rattle.mail_notes.specs.Names.{mail_temp};
ghost use Rattle.mail_session.specs.inside.SentNotice.{Sends};

use crate::notice_start::send_notice;
use crate::places::{place_notes, place_notice};
use host_calls::{Child, Host, HostFault};
use std::alloc::Global;

// Places the notice of the number and the text of the notes, which says that it was sent, and sends it. No child
// where the host could start none.
pub(crate) fn send<H: Host>(
    alloc: Global,
    host: &mut H,
    number: u32,
    script: &[u8],
    text: &[u8],
) -> Result<Option<Child>, HostFault>
    requires inside { IsInside (H.session host.old) }
    requires no_temp { IsTrue H.tells → IsInNoImage (H.world host.old).now.directory mail_temp }
    ensures { Sends H.tells (H.session host.old) (H.session host.new) (H.world host.old) (H.world host.new)
        number script.now text.now result }
{
    place_notice(alloc, host, number, script)?;
    // A crash between the hand-over and a later note would let the next session hand the same notice over once more.
    place_notes(alloc, host, text)?;
    send_notice(alloc, host, number)
}
