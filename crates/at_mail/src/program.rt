//! The program: what its words request, done.
ghost use Rattle.std.specs.Prelude.{◌≡◌, IsTrue, Ok, map, string_bytes};
ghost use Rattle.host_calls.specs.Session.{IsOutside};
ghost use Rattle.listing_text.specs.Cause.{status_of};
ghost use Rattle.mail_session.specs.PostState.{may_be_program};
ghost use Rattle.at_mail.specs.Program.{PostEnds, mail_outside};
ghost use Rattle.at_mail.specs.Words.{post_asked};

use crate::lines::{MAIL_PROGRAM, say_mail_outcome};
use crate::request::PostRequest;
use crate::session_loop::make_mail_sessions;
use crate::words::mail_request;
use host_calls::{Host, Readings, Sink};
use listing_text::{Cause, Status};
use mail_session::Post;
use std::alloc::Global;
use tool_output::{cause_of_words, say_cause};

/// Makes sessions of mail, with a rest of twenty seconds between two: the ends of jobs are noted in the spool, and their
/// notices sent. A session that is not done is said on `err`; one that finds a damage is the last.
pub fn post_program<H: Host, R: Readings, E: Sink>(
    alloc: Global,
    words: &[String],
    host: &mut H,
    readings: &mut R,
    err: &mut E,
) -> Status
    requires { IsOutside (H.session host.old) }
    ensures code { result ≡ status_of result.cause }
    ensures posts { PostEnds (post_asked (map string_bytes words.now))
        (mail_outside H.Host R.Readings E.Sink host.old readings.old err.old)
        (mail_outside H.Host R.Readings E.Sink host.new readings.new err.new) result.cause }
{
    let cause = run_words(alloc, words, host, readings, err);
    Status::of(cause)
}

// Does what the words request. Answers the cause, which was said.
fn run_words<H: Host, R: Readings, E: Sink>(
    alloc: Global,
    words: &[String],
    host: &mut H,
    readings: &mut R,
    err: &mut E,
) -> Cause
    requires { IsOutside (H.session host.old) }
    ensures { PostEnds (post_asked (map string_bytes words.now))
        (mail_outside H.Host R.Readings E.Sink host.old readings.old err.old)
        (mail_outside H.Host R.Readings E.Sink host.new readings.new err.new) result }
{
    match mail_request(alloc, words) {
        Ok(request) => post_sessions(alloc, &request, host, readings, err),
        Err(fault) => say_cause(alloc, MAIL_PROGRAM, cause_of_words(fault), err),
    }
}

// Makes the sessions that are requested, on one post. Answers the cause, which was said.
fn post_sessions<H: Host, R: Readings, E: Sink>(
    alloc: Global,
    request: &PostRequest,
    host: &mut H,
    readings: &mut R,
    err: &mut E,
) -> Cause
    requires outside { IsOutside (H.session host.old) }
    requires program { IsTrue (may_be_program request.now.program) }
    ensures { PostEnds (Ok request.now)
        (mail_outside H.Host R.Readings E.Sink host.old readings.old err.old)
        (mail_outside H.Host R.Readings E.Sink host.new readings.new err.new) result }
{
    match Post::new(alloc, request.program.as_str()) {
        Ok(mut post) => {
            let outcome = make_mail_sessions(alloc, &mut post, request.turns, host, readings, err);
            say_mail_outcome(alloc, outcome, err)
        }
        Err(_) => say_cause(alloc, MAIL_PROGRAM, Cause::Memory, err),
    }
}
