//! The loop of turns.
ghost use Rattle.std.specs.Prelude.{◌≡◌, ◌≤◌, false};
ghost use Rattle.tool_output.specs.Sinks.{sink_at};
ghost use Rattle.daemon_turn.specs.Kids.{AreChildren, KeepsChildren};
ghost use Rattle.host_calls.specs.Session.{IsOutside, KeepsCounts};
ghost use Rattle.listing_text.specs.Cause.{status_of};
ghost use Rattle.serving.specs.Outside.{EndsOutside, HasRisenServing, IsServed, StaysMadeServing, serving_outside};
ghost use Rattle.serving.specs.Serves.{serve_at};
ghost use Rattle.tool_output.specs.Outside.{telling};
ghost use Rattle.serving.specs.inside.NextTurn.{HasEnded};

use crate::ServeOutcome;
use crate::next_turn::next_turn;
use crate::outcome_line::say_serve_outcome;
use crate::progress::Progress;
use daemon_turn::Daemon;
use host_calls::{Host, Readings, Sink};
use listing_text::{Cause, Status};
use std::alloc::Global;

/// Makes turns, at most so many, with a rest between each two. Where `once` is set the first turn alone starts jobs, and
/// the others come until no child is left. What the turns did is printed on `out`, and why they ended said on `err`.
pub fn serve<H: Host, R: Readings, O: Sink, E: Sink>(
    alloc: Global,
    daemon: &mut Daemon,
    turns: u64,
    once: bool,
    host: &mut H,
    readings: &mut R,
    out: &mut O,
    err: &mut E,
) -> Status
    requires outside { IsOutside (H.session host.old) }
    requires turns { 1 ≤ turns }
    requires children { AreChildren (H.session host.old).children daemon.old.kids }

    ensures code { result ≡ status_of result.cause }
    ensures session { EndsOutside (H.session host.old) (H.session host.new) }
    ensures children { AreChildren (H.session host.new).children daemon.new.kids }

    // Each fault comes only where its count rose.
    ensures faults { HasRisenServing
        (serving_outside H.Host R.Readings O.Sink E.Sink host.old readings.old out.old err.old)
        (serving_outside H.Host R.Readings O.Sink E.Sink host.new readings.new out.new err.new) result.cause }

    // The turns and the rests between them, what is printed and said of them, and the cause.
    ensures serving { IsServed once turns daemon.old daemon.new
        (serving_outside H.Host R.Readings O.Sink E.Sink host.old readings.old out.old err.old)
        (serving_outside H.Host R.Readings O.Sink E.Sink host.new readings.new out.new err.new) result.cause }

    // What the others were made as stays.
    ensures made { StaysMadeServing
        (serving_outside H.Host R.Readings O.Sink E.Sink host.old readings.old out.old err.old)
        (serving_outside H.Host R.Readings O.Sink E.Sink host.new readings.new out.new err.new) }
{
    let outcome = make_turns(alloc, daemon, turns, once, host, readings, out, err);
    Status::of(say_serve_outcome(alloc, outcome, err))
}

// Makes turns until one ends it or all are made. Answers its result.
fn make_turns<H: Host, R: Readings, O: Sink, E: Sink>(
    alloc: Global,
    daemon: &mut Daemon,
    turns: u64,
    once: bool,
    host: &mut H,
    readings: &mut R,
    out: &mut O,
    err: &mut E,
) -> ServeOutcome
    requires outside { IsOutside (H.session host.old) }
    requires children { AreChildren (H.session host.old).children daemon.old.kids }
    ensures outside { IsOutside (H.session host.new) }
    ensures children { AreChildren (H.session host.new).children daemon.new.kids }
    ensures kept { KeepsChildren (H.session host.old).children (H.session host.new).children }
    ensures counts { KeepsCounts (H.session host.old) (H.session host.new) }
    ensures readers_made { (R.readers readings.new).made_as ≡ (R.readers readings.old).made_as }
    ensures out_made { (O.outlet out.new).made_as ≡ (O.outlet out.old).made_as }
    ensures errors_made { (E.outlet err.new).made_as ≡ (E.outlet err.old).made_as }
    ensures ends { HasEnded (telling H.tells H.alone R.tells false O.tells E.tells) once turns
        (serve_at (H.session host.old) (H.world host.old) daemon.old (R.answers readings.old) (R.readers readings.old))
        (serve_at (H.session host.new) (H.world host.new) daemon.new (R.answers readings.new) (R.readers readings.new))
        (sink_at (O.content out.old) (O.outlet out.old)) (sink_at (O.content out.new) (O.outlet out.new))
        (sink_at (E.content err.old) (E.outlet err.old)) (sink_at (E.content err.new) (E.outlet err.new)) result }
{
    let mut progress = Progress::new();
    for _turn in 0..turns {
        match next_turn(alloc, daemon, once, &mut progress, host, readings, out, err) {
            Some(outcome) => return outcome,
            None => {}
        }
    }
    progress.outcome(once, daemon.kids())
}
