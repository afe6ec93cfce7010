//! The program: what its words request, done.
ghost use Rattle.std.specs.Prelude.{◌≡◌, IsTrue, codes, map, string_bytes};
ghost use Rattle.tool_output.specs.Sinks.{EndsLine, sink_at};
ghost use Rattle.host_calls.specs.Session.{IsOutside};
ghost use Rattle.listing_text.specs.Cause.{status_of};
ghost use Rattle.at_account.specs.AccountOutcome.{Accounting, account_outside};
ghost use Rattle.at_account.specs.Words.{account_asked};

use crate::session::account;
use crate::words::asks_to_show;
use host_calls::{Host, Sink};
use listing_text::{Cause, Status};
use std::alloc::Global;
use tool_output::{cause_of_words, say_cause};

// The name under which the program says its causes.
const PROGRAM: &str = "ataccount";

/// Counts what became of the jobs, in one session: the store is recovered, the file of accounts is read and replaced by
/// one with what is new. With `--show` the lines of the account are put, once the session is left.
pub fn account_program<H: Host, O: Sink, E: Sink>(
    alloc: Global,
    words: &[String],
    host: &mut H,
    out: &mut O,
    err: &mut E,
) -> Status
    requires { IsOutside (H.session host.old) }
    ensures code { result ≡ status_of result.cause }
    ensures accounting { Accounting (account_asked (map string_bytes words.now))
        (account_outside H.Host O.Sink host.old out.old) (account_outside H.Host O.Sink host.new out.new) result.cause }
    ensures says { IsTrue E.tells → EndsLine (codes "ataccount") result.cause
        (sink_at (E.content err.old) (E.outlet err.old)) (sink_at (E.content err.new) (E.outlet err.new)) }
    ensures made_as { (E.outlet err.new).made_as ≡ (E.outlet err.old).made_as }
{
    let cause = account_by_words(alloc, words, host, out);
    Status::of(say_cause(alloc, PROGRAM, cause, err))
}

// Does what the words request. The line of the cause is still to be said.
fn account_by_words<H: Host, O: Sink>(
    alloc: Global,
    words: &[String],
    host: &mut H,
    out: &mut O,
) -> Cause
    requires { IsOutside (H.session host.old) }
    ensures { Accounting (account_asked (map string_bytes words.now))
        (account_outside H.Host O.Sink host.old out.old) (account_outside H.Host O.Sink host.new out.new) result }
{
    match asks_to_show(alloc, words) {
        Ok(show) => account(alloc, show, host, out),
        Err(fault) => cause_of_words(fault),
    }
}
