//! Files of mail are placed.
ghost use Rattle.std.specs.Prelude.{IsTrue};
ghost use Rattle.host_calls.specs.Directory.{IsInNoImage};
ghost use Rattle.host_calls.specs.Session.{CallsInside, IsInside};
ghost use Rattle.mail_notes.specs.Names.{mail_file, mail_temp, notice_file};
ghost use Rattle.mail_session.specs.inside.SentNotice.{Places};

use host_calls::{Host, HostFault};
use mail_notes::{mail_name, mail_temp_name, notice_name};
use std::alloc::Global;
use whole_file::place;

// Gives the file of notes this text.
pub(crate) fn place_notes<H: Host>(
    alloc: Global,
    host: &mut H,
    text: &[u8],
) -> Result<(), HostFault>
    requires inside { IsInside (H.session host.old) }
    requires no_temp { IsTrue H.tells → IsInNoImage (H.world host.old).now.directory mail_temp }
    ensures inside { CallsInside HostFault.Failed (H.session host.old) (H.session host.new) result }
    ensures files { IsTrue H.tells → Places mail_file text.now (H.world host.old) (H.world host.new) result }
{
    place(alloc, host, &mail_temp_name(), &mail_name(), text)
}

// Gives the file of the number's notice this text.
pub(crate) fn place_notice<H: Host>(
    alloc: Global,
    host: &mut H,
    number: u32,
    script: &[u8],
) -> Result<(), HostFault>
    requires inside { IsInside (H.session host.old) }
    requires no_temp { IsTrue H.tells → IsInNoImage (H.world host.old).now.directory mail_temp }
    ensures inside { CallsInside HostFault.Failed (H.session host.old) (H.session host.new) result }
    ensures files { IsTrue H.tells
        → Places (notice_file number) script.now (H.world host.old) (H.world host.new) result }
{
    place(alloc, host, &mail_temp_name(), &notice_name(number), script)
}
