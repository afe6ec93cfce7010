//! The program that trims.
ghost use Rattle.std.specs.Prelude.{◌≡◌, map, string_bytes};
ghost use Rattle.host_calls.specs.Session.{IsOutside};
ghost use Rattle.listing_text.specs.Cause.{status_of};
ghost use Rattle.at_mail.specs.TrimProgram.{TrimEnds, trim_outside};
ghost use Rattle.at_mail.specs.TrimWords.{trim_asked};

use crate::trim;
use crate::trim_words::ask_for_a_trim;
use host_calls::{Host, Sink};
use listing_text::{Cause, Status};
use std::alloc::Global;
use tool_output::{cause_of_end, cause_of_words, say_cause};

// The name under which the program says its causes.
const PROGRAM: &str = "atpost";

/// Makes one trim, where the words are `--trim`. One that is not done is said on `err`.
pub fn trim_program<H: Host, E: Sink>(
    alloc: Global,
    words: &[String],
    host: &mut H,
    err: &mut E,
) -> Status
    requires { IsOutside (H.session host.old) }
    ensures code { result ≡ status_of result.cause }
    ensures made_as { (E.outlet err.new).made_as ≡ (E.outlet err.old).made_as }
    ensures trims { TrimEnds (trim_asked (map string_bytes words.now))
        (trim_outside H.Host E.Sink host.old err.old) (trim_outside H.Host E.Sink host.new err.new) result.cause }
{
    let cause = trim_as_asked(alloc, words, host, err);
    Status::of(cause)
}

// Does what the words request. Answers the cause, which was said.
fn trim_as_asked<H: Host, E: Sink>(
    alloc: Global,
    words: &[String],
    host: &mut H,
    err: &mut E,
) -> Cause
    requires { IsOutside (H.session host.old) }
    ensures made_as { (E.outlet err.new).made_as ≡ (E.outlet err.old).made_as }
    ensures trims { TrimEnds (trim_asked (map string_bytes words.now))
        (trim_outside H.Host E.Sink host.old err.old) (trim_outside H.Host E.Sink host.new err.new) result }
{
    match ask_for_a_trim(alloc, words) {
        Ok(()) => {
            let end = trim(alloc, host);
            say_cause(alloc, PROGRAM, cause_of_end(&end), err)
        }
        Err(fault) => say_cause(alloc, PROGRAM, cause_of_words(fault), err),
    }
}
