//! Sessions, one after another.
ghost use Rattle.std.specs.Prelude.{◌≡◌, ◌≤◌};
ghost use Rattle.tool_output.specs.Outside.{RestsOn, clock_at};
ghost use Rattle.tool_output.specs.Sinks.{sink_at};
ghost use Rattle.daemon_turn.specs.Kids.{AreChildren};
ghost use Rattle.host_calls.specs.Session.{IsOutside};
ghost use Rattle.at_mail.specs.Program.{mail_outside, work_with};
ghost use Rattle.at_mail.specs.inside.OneSession.{HasMade, MakesOne, rest_before};

use crate::lines::{say_mail_end, session_outcome};
use crate::outcome::MailOutcome;
use host_calls::{Host, Readings, Sink};
use listing_text::Cause;
use mail_session::Post;
use std::alloc::Global;

// The seconds between two sessions.
const REST: u32 = 20;

// Makes sessions until one ends the program or all are made. Answers its result.
pub(crate) fn make_mail_sessions<H: Host, R: Readings, E: Sink>(
    alloc: Global,
    post: &mut Post,
    turns: u64,
    host: &mut H,
    readings: &mut R,
    err: &mut E,
) -> MailOutcome
    requires outside { IsOutside (H.session host.old) }
    requires children { AreChildren (H.session host.old).children post.old.kids }
    ensures made { (E.outlet err.new).made_as ≡ (E.outlet err.old).made_as }
    ensures makes { HasMade (mail_outside H.Host R.Readings E.Sink host.old readings.old err.old).tells turns
        (work_with post.old (mail_outside H.Host R.Readings E.Sink host.old readings.old err.old))
        (work_with post.new (mail_outside H.Host R.Readings E.Sink host.new readings.new err.new)) result }
{
    for place in 0..turns {
        rest_before_mail_session(place, readings);
        match next_mail_session(alloc, post, host, err) {
            Some(outcome) => return outcome,
            None => {}
        }
    }
    MailOutcome::Own(Cause::Done)
}

// Rests before the session of this place. There is no rest before the first.
fn rest_before_mail_session<R: Readings>(place: u64, readings: &mut R)
    ensures { RestsOn R.tells (rest_before place)
        (clock_at R.Readings readings.old) (clock_at R.Readings readings.new) }
{
    if place != 0 {
        readings.rest(REST);
    }
}

// Makes one session and says how it ended. Answers what the program comes to, where no further one is to be made.
fn next_mail_session<H: Host, E: Sink>(
    alloc: Global,
    post: &mut Post,
    host: &mut H,
    err: &mut E,
) -> Option<MailOutcome>
    requires outside { IsOutside (H.session host.old) }
    requires children { AreChildren (H.session host.old).children post.old.kids }
    ensures made { (E.outlet err.new).made_as ≡ (E.outlet err.old).made_as }
    ensures makes { MakesOne H.tells H.alone E.tells
        (record { session = H.session host.old; world = H.world host.old; post = post.old })
        (record { session = H.session host.new; world = H.world host.new; post = post.new })
        (sink_at (E.content err.old) (E.outlet err.old)) (sink_at (E.content err.new) (E.outlet err.new)) result }
{
    let report = post.session(alloc, host);
    let said = say_mail_end(alloc, &report.end, err);
    session_outcome(&report.end, &said)
}
