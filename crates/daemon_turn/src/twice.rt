//! Two turns, one after the other.
ghost use Rattle.host_calls.specs.ClockRange.{IsClockSecond};
ghost use Rattle.host_calls.specs.Session.{IsOutside};
ghost use Rattle.daemon_turn.specs.Kids.{AreChildren};
ghost use Rattle.daemon_turn.specs.Twice.{TurnsTwice};

use crate::{Daemon, TurnInput, TurnReport};
use host_calls::Host;
use std::alloc::Global;

/// Makes two turns, one after the other, and gives what each reports.
pub fn turn_twice<H: Host>(
    alloc: Global,
    daemon: &mut Daemon,
    host: &mut H,
    first: TurnInput,
    second: TurnInput,
) -> (TurnReport, TurnReport)
    requires outside { IsOutside (H.session host.old) }
    requires first { IsClockSecond first.now }
    requires second { IsClockSecond second.now }
    requires children { AreChildren (H.session host.old).children daemon.old.kids }
    ensures { TurnsTwice H.tells H.alone first second
        (record { session = H.session host.old; world = H.world host.old; daemon = daemon.old })
        (record { session = H.session host.new; world = H.world host.new; daemon = daemon.new })
        result.0 result.1 }
{
    let one = daemon.turn(alloc, host, first.now, first.load, first.mode);
    let other = daemon.turn(alloc, host, second.now, second.load, second.mode);
    (one, other)
}
