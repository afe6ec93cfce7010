//! The checker as a program.
ghost use Rattle.std.specs.Prelude.{◌≡◌, false, map, string_bytes};
ghost use Rattle.tool_output.specs.Outside.{DirectoryAt, directory_at, stream_at};
ghost use Rattle.tool_output.specs.Sinks.{sink_at};
ghost use Rattle.host_calls.specs.Session.{IsLeft, IsOutside};
ghost use Rattle.listing_text.specs.Cause.{status_of};
ghost use Rattle.spool_check.specs.CheckOutcome.{ChecksAsRequested, CheckEnds, IsChecked};
ghost use Rattle.spool_check.specs.inside.CheckParts.{ReportsFaults, cause_by};
ghost use Rattle.spool_check.specs.Outside.{HasRisenInEither, handed, directories_at};
ghost use Rattle.spool_check.specs.Words.{check_asked};

use crate::lines::report_faults;
use crate::save::check_and_save;
use crate::session::look;
use crate::words::asks_to_salvage;
use host_calls::{Damage, Host, Sink};
use listing_text::{Cause, Status};
use std::alloc::Global;
use tool_output::{CommandError, cause_of_words, say_cause};

// The name under which the cause is said.
const TOOL: &str = "atcheck";

/// Tells every fault of the directory, a line each, and where the words request it writes what is saved of it into the
/// new directory. The first of the words is the program's name, whatever it is.
pub fn check_program<H: Host, G: Host, O: Sink, E: Sink>(
    alloc: Global,
    words: &[String],
    from: &mut H,
    to: &mut G,
    out: &mut O,
    err: &mut E,
) -> Status
    requires from { IsOutside (H.session from.old) }
    requires to { IsOutside (G.session to.old) }
    ensures code { result ≡ status_of result.cause }
    ensures from { IsLeft (H.session from.old) (H.session from.new) }
    ensures to { IsLeft (G.session to.old) (G.session to.new) }
    ensures out_made { (O.outlet out.new).made_as ≡ (O.outlet out.old).made_as }
    ensures err_made { (E.outlet err.new).made_as ≡ (E.outlet err.old).made_as }
    ensures risen { HasRisenInEither (directories_at H.Host G.Host O.Sink from.old to.old out.old)
        (directories_at H.Host G.Host O.Sink from.new to.new out.new) result.cause }
    ensures ends { CheckEnds (check_asked (map string_bytes words.now))
        (directories_at H.Host G.Host O.Sink from.old to.old out.old)
        (directories_at H.Host G.Host O.Sink from.new to.new out.new)
        (stream_at E.Sink err.old) (stream_at E.Sink err.new) result.cause }
{
    let cause = check_by_words(alloc, words, from, to, out);
    Status::of(say_cause(alloc, TOOL, cause, err))
}

// Does what the words request. The line of the cause is still to be said.
fn check_by_words<H: Host, G: Host, O: Sink>(
    alloc: Global,
    words: &[String],
    from: &mut H,
    to: &mut G,
    out: &mut O,
) -> Cause
    requires from { IsOutside (H.session from.old) }
    requires to { IsOutside (G.session to.old) }
    ensures from { IsLeft (H.session from.old) (H.session from.new) }
    ensures to { IsLeft (G.session to.old) (G.session to.new) }
    ensures made_as { (O.outlet out.new).made_as ≡ (O.outlet out.old).made_as }
    ensures risen { HasRisenInEither (directories_at H.Host G.Host O.Sink from.old to.old out.old)
        (directories_at H.Host G.Host O.Sink from.new to.new out.new) result }
    ensures does { ChecksAsRequested (check_asked (map string_bytes words.now))
        (directories_at H.Host G.Host O.Sink from.old to.old out.old)
        (directories_at H.Host G.Host O.Sink from.new to.new out.new) result }
{
    match asks_to_salvage(alloc, words) {
        Ok(true) => cause_of_check(check_and_save(alloc, from, to, out)),
        Ok(false) => cause_of_check(list_faults(alloc, from, out)),
        Err(fault) => cause_of_words(fault),
    }
}

fn cause_of_check(ended: Result<Cause, CommandError>) -> Cause
    ensures { result ≡ cause_by ended }
{
    match ended {
        Ok(cause) => cause,
        Err(stopped) => stopped.cause,
    }
}

// Tells the faults of the directory. Its session is over before the lines are put: a slow reader holds no lock.
fn list_faults<H: Host, O: Sink>(
    alloc: Global,
    from: &mut H,
    out: &mut O,
) -> Result<Cause, CommandError>
    requires { IsOutside (H.session from.old) }
    ensures left { IsLeft (H.session from.old) (H.session from.new) }
    ensures made_as { (O.outlet out.new).made_as ≡ (O.outlet out.old).made_as }
    ensures risen { (to : DirectoryAt) → HasRisenInEither
        (handed (directory_at H.Host from.old) to (stream_at O.Sink out.old))
        (handed (directory_at H.Host from.new) to (stream_at O.Sink out.new)) (cause_by result) }
    ensures checked { (to : DirectoryAt) → IsChecked false
        (handed (directory_at H.Host from.old) to (stream_at O.Sink out.old))
        (handed (directory_at H.Host from.new) to (stream_at O.Sink out.new)) (cause_by result) }
{
    let found = look(alloc, from)?;
    tell_outside(alloc, from, found.faults.as_slice(), out)
}

// Tells them outside of a session of the directory.
fn tell_outside<H: Host, O: Sink>(
    alloc: Global,
    from: &H,
    faults: &[Damage],
    out: &mut O,
) -> Result<Cause, CommandError>
    requires { IsOutside (H.session from.now) }
    ensures made_as { (O.outlet out.new).made_as ≡ (O.outlet out.old).made_as }
    ensures tells { ReportsFaults O.tells faults.now
        (sink_at (O.content out.old) (O.outlet out.old)) (sink_at (O.content out.new) (O.outlet out.new)) result }
{
    report_faults(alloc, faults, out)
}
