//! The words of the program.
ghost use Rattle.std.specs.Prelude.{◌≡◌, ◌==◌, IfOk, IsTrue, Some, codes, map, string_bytes};
ghost use Rattle.std.specs.List.{list_any};
ghost use Rattle.clap.specs.Matches.{found_of};
ghost use Rattle.clap.specs.Simple.{app_of, with_rule};
ghost use Rattle.clap.specs.Walk.{rows_of};
ghost use Rattle.at_words.specs.Answers.{Answers};
ghost use Rattle.at_words.specs.Commands.{bare_app, long_rule};
ghost use Rattle.mail_session.specs.PostState.{begins_with_slash, may_be_program};
ghost use Rattle.at_mail.specs.Words.{matches_asked, post_app, post_asked, sessions_asked};

use crate::request::PostRequest;
use at_words::{WordsFault, bare_command, parsed, turns_of, value, with_long};
use clap::{ArgMatches, Command};
use host_calls::Text;
use std::alloc::{AllocError, Global};

// What the words request, the first of which is the program's name.
pub(crate) fn mail_request(alloc: Global, words: &[String]) -> Result<PostRequest, WordsFault>
    ensures asked { Answers (post_asked (map string_bytes words.now)) result }
    ensures program { IfOk result (λ request. IsTrue (may_be_program request.program)) }
{
    if words.is_empty() {
        return Err(WordsFault::Usage);
    }
    let command = mail_command(alloc)?;
    let matches = parsed(command, words)?;
    request_of_matches(alloc, &matches)
}

fn mail_command<'a>(alloc: Global) -> Result<Command<'a>, AllocError>
    ensures { IfOk result (λ made. app_of made ≡ post_app) }
{
    let send = with_send(alloc)?;
    with_long(alloc, send, "turns")
}

// The command with its first option.
fn with_send<'a>(alloc: Global) -> Result<Command<'a>, AllocError>
    ensures { IfOk result (λ made. app_of made ≡ with_rule (bare_app (codes "atpost")) (long_rule (codes "send"))) }
{
    with_long(alloc, bare_command(alloc, "atpost"), "send")
}

// What the matches request.
fn request_of_matches(alloc: Global, matches: &ArgMatches) -> Result<PostRequest, WordsFault>
    ensures asked { Answers (matches_asked (rows_of (found_of matches.now))) result }
    ensures program { IfOk result (λ request. IsTrue (may_be_program request.program)) }
{
    let turns = turns_of(value(matches, "turns"));
    match (value(matches, "send"), turns) {
        (Some(program), Some(turns)) => sessions(alloc, program, turns),
        _ => Err(WordsFault::Usage),
    }
}

// So many sessions with this mail program.
fn sessions(alloc: Global, program: &str, turns: u64) -> Result<PostRequest, WordsFault>
    ensures asked { Answers (sessions_asked (Some program.now) (Some turns)) result }
    ensures program { IfOk result (λ request. IsTrue (may_be_program request.program)) }
{
    if !may_be_program(program) {
        return Err(WordsFault::Usage);
    }
    Ok(PostRequest {
        program: Text::of(alloc, program)?,
        turns,
    })
}

// Whether the text may name the mail program: it begins with a slash, and holds no zero byte.
fn may_be_program(text: &str) -> bool
    ensures { result ≡ may_be_program text.now }
{
    let bytes = text.as_bytes();
    begins_with_slash(bytes) && !has_zero(bytes)
}

fn begins_with_slash(bytes: &[u8]) -> bool
    ensures { result ≡ begins_with_slash bytes.now }
{
    match bytes {
        [] => false,
        [first, ..] => *first == b'/',
    }
}

fn has_zero(bytes: &[u8]) -> bool
    ensures { result ≡ list_any (λ byte. byte == 0) bytes.now }
{
    bytes.iter().any(|byte| *byte == 0)
}
