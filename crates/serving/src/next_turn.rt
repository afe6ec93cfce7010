//! One turn of serving: the readings are asked, the turn is made, and what it did is printed and said.
ghost use Rattle.std.specs.Prelude.{◌≡◌, List, false};
ghost use Rattle.tool_output.specs.Sinks.{SinkAt, sink_at};
ghost use Rattle.tool_output.specs.Ends.{SaysEndOr};
ghost use Rattle.daemon_turn.specs.Kids.{AreChildren, KeepsChildren};
ghost use Rattle.host_calls.specs.Session.{IsOutside, KeepsCounts};
ghost use Rattle.serving.specs.Items.{TurnItem};
ghost use Rattle.serving.specs.Lines.{daemon_name, step_lines};
ghost use Rattle.serving.specs.Serves.{ServeState, serve_at};
ghost use Rattle.tool_output.specs.Outside.{telling};
ghost use Rattle.serving.specs.inside.NextTurn.{HasServed, PrintsMore, Proceeds};

use crate::ServeOutcome;
use crate::outcome_line::DAEMON_NAME;
use crate::progress::Progress;
use daemon_turn::{Daemon, TurnReport, TurnStep};
use host_calls::{Host, Readings, Sink, SinkFault, is_clock_second};
use listing_text::{Cause, Refusal};
use std::alloc::Global;
use tool_output::{put_lines, say_end};

// Rests, and makes one more turn. Answers what serving comes to, where no further one is to be made.
// The rest comes before a turn, since only then it is known that there is one more. Where the clock is out of range no
// load is read, for no turn is made with it.
pub(crate) fn next_turn<H: Host, R: Readings, O: Sink, E: Sink>(
    alloc: Global,
    daemon: &mut Daemon,
    once: bool,
    progress: &mut Progress,
    host: &mut H,
    readings: &mut R,
    out: &mut O,
    err: &mut E,
) -> Option<ServeOutcome>
    requires outside { IsOutside (H.session host.old) }
    requires children { AreChildren (H.session host.old).children daemon.old.kids }
    ensures outside { IsOutside (H.session host.new) }
    ensures children { AreChildren (H.session host.new).children daemon.new.kids }
    ensures kept { KeepsChildren (H.session host.old).children (H.session host.new).children }
    ensures counts { KeepsCounts (H.session host.old) (H.session host.new) }
    ensures readers_made { (R.readers readings.new).made_as ≡ (R.readers readings.old).made_as }
    ensures out_made { (O.outlet out.new).made_as ≡ (O.outlet out.old).made_as }
    ensures errors_made { (E.outlet err.new).made_as ≡ (E.outlet err.old).made_as }
    ensures proceeds { (items : List TurnItem) (first : ServeState) (out_first err_first : SinkAt) →
        HasServed (telling H.tells H.alone R.tells false O.tells E.tells) once items progress.old first
        (serve_at (H.session host.old) (H.world host.old) daemon.old (R.answers readings.old) (R.readers readings.old))
        out_first (sink_at (O.content out.old) (O.outlet out.old))
        err_first (sink_at (E.content err.old) (E.outlet err.old))
        → Proceeds (telling H.tells H.alone R.tells false O.tells E.tells) once items progress.new first
        (serve_at (H.session host.new) (H.world host.new) daemon.new (R.answers readings.new) (R.readers readings.new))
        out_first (sink_at (O.content out.new) (O.outlet out.new))
        err_first (sink_at (E.content err.new) (E.outlet err.new)) result }
{
    progress.rest_before_turn(readings);
    let now = readings.now();
    if !is_clock_second(now) {
        return Some(ServeOutcome::Own(Cause::Refused(Refusal::BadClock)));
    }
    let load = readings.load();
    let report = daemon.turn(alloc, host, now, load, progress.mode(once));
    if !report_turn(alloc, &report, &mut progress.output_failed, out, err) {
        return Some(ServeOutcome::Own(Cause::Memory));
    }
    progress.add(once, now, &report.end);
    progress.outcome_after(once, &report.end, daemon.kids())
}

// Prints what a turn did and says how it ended. Answers whether each line found memory.
fn report_turn<O: Sink, E: Sink>(
    alloc: Global,
    report: &TurnReport,
    output_failed: &mut bool,
    out: &mut O,
    err: &mut E,
) -> bool
    ensures out_made { (O.outlet out.new).made_as ≡ (O.outlet out.old).made_as }
    ensures errors_made { (E.outlet err.new).made_as ≡ (E.outlet err.old).made_as }
    ensures prints { PrintsMore O.tells (step_lines report.now.steps) output_failed.old output_failed.new
        (sink_at (O.content out.old) (O.outlet out.old)) (sink_at (O.content out.new) (O.outlet out.new)) result }
    ensures says { SaysEndOr daemon_name E.tells report.now.end
        (sink_at (E.content err.old) (E.outlet err.old)) (sink_at (E.content err.new) (E.outlet err.new)) result }
{
    if !print_unless(alloc, report.steps.as_slice(), output_failed, out) {
        return false;
    }
    say_end(alloc, DAEMON_NAME, &report.end, err)
}

// Prints the steps unless a put has failed, and answers whether each line found memory.
fn print_unless<O: Sink>(
    alloc: Global,
    steps: &[TurnStep],
    output_failed: &mut bool,
    out: &mut O,
) -> bool
    ensures made_as { (O.outlet out.new).made_as ≡ (O.outlet out.old).made_as }
    ensures prints { PrintsMore O.tells (step_lines steps.now) output_failed.old output_failed.new
        (sink_at (O.content out.old) (O.outlet out.old)) (sink_at (O.content out.new) (O.outlet out.new)) result }
{
    if *output_failed {
        return true;
    }
    match put_lines(alloc, steps, out) {
        Ok(()) => true,
        Err(SinkFault::Failed) => {
            *output_failed = true;
            true
        }
        Err(SinkFault::Memory) => false,
    }
}
