//! The events of a simulated run, by their numbers.
ghost use Rattle.std.specs.Prelude.{◌≡◌, ◌<◌, ◌∷◌, [], IfOk, Some, codes};
ghost use Rattle.at_day.specs.Made.{echo_of, last_of_eight, made_caller, made_command, made_event, removal_words, second_of};

use crate::{Event, Words};
use at_words::MAX_EVENTS;
use civil_minute::Zone;
use host_calls::{Bytes, Text};
use job_script::{Context, Variables};
use std::alloc::{AllocError, Global};
use tool_output::Caller;

// The first second of 2025 in UTC.
const FIRST_SECOND: i64 = 1_735_689_600;

/// The event of this number.
pub fn made_event(alloc: Global, number: u32) -> Result<Event, AllocError>
    requires { number < MAX_EVENTS }
    ensures { IfOk result (λ event. event ≡ made_event number) }
{
    if number % 8 == 0 {
        return submission_event(alloc, number, at_now(alloc)?);
    }
    if number % 8 == 1 {
        return submission_event(alloc, number, at_now_later(alloc)?);
    }
    if number % 8 == 2 {
        return submission_event(alloc, number, one_word(alloc, "batch")?);
    }
    if number % 8 == 3 {
        return Ok(turn_event(number, 100));
    }
    if number % 8 == 4 {
        return command_event(alloc, number, one_word(alloc, "atq")?, empty_input(alloc));
    }
    if number % 8 == 5 {
        return Ok(turn_event(number, 37 * number % 300));
    }
    if number % 8 == 6 {
        return command_event(alloc, number, removal(alloc, number)?, empty_input(alloc));
    }
    Ok(last_of_eight(number))
}

// A turn under a load.
fn turn_event(number: u32, load: u32) -> Event
    requires { number < MAX_EVENTS }
    ensures { result ≡ Event.Turn (second_of number) (Some load) }
{
    Event::Turn {
        now: event_second(number),
        load: Some(load),
    }
}

// A reboot each fourth time, else a turn without load.
fn last_of_eight(number: u32) -> Event
    requires { number < MAX_EVENTS }
    ensures { result ≡ last_of_eight number }
{
    if number % 32 == 31 {
        return Event::Reboot {
            pick: u64::from(number),
            fuse: None,
        };
    }
    turn_event(number, 0)
}

// The second of the event of this number.
fn event_second(number: u32) -> i64
    requires { number < MAX_EVENTS }
    ensures { result ≡ second_of number }
{
    FIRST_SECOND + 60 * i64::from(number)
}

// A submission by these words.
fn submission_event(alloc: Global, number: u32, words: Words) -> Result<Event, AllocError>
    requires { number < MAX_EVENTS }
    ensures { IfOk result (λ event. event ≡ made_command number words (echo_of number)) }
{
    let input = format!(in alloc; "echo {number}\n")?;
    command_event(alloc, number, words, Bytes::from(input.into_bytes()))
}

// A command by these words, with this input.
fn command_event(
    alloc: Global,
    number: u32,
    words: Words,
    input: Bytes,
) -> Result<Event, AllocError>
    requires { number < MAX_EVENTS }
    ensures { IfOk result (λ event. event ≡ made_command number words input) }
{
    Ok(Event::Command {
        words,
        caller: ann(alloc)?,
        input,
        now: event_second(number),
    })
}

// The user `ann` at home, in UTC.
fn ann(alloc: Global) -> Result<Caller, AllocError>
    ensures { IfOk result (λ caller. caller ≡ made_caller) }
{
    let mut environment = Variables::new(alloc);
    environment.push(alloc, "HOME", "/home/ann")?;
    let context = Context {
        user: Text::of(alloc, "ann")?,
        directory: Text::of(alloc, "/home/ann")?,
        umask: 0o022,
        environment,
    };
    Ok(Caller {
        context,
        zone: Zone::Utc,
    })
}

fn empty_input(alloc: Global) -> Bytes
    ensures { result ≡ [] }
{
    Bytes::from(Vec::new(alloc))
}

fn one_word(alloc: Global, word: &str) -> Result<Words, AllocError>
    ensures { IfOk result (λ words. words ≡ word.now ∷ []) }
{
    let mut words = Words::new(alloc);
    words.push(alloc, word)?;
    Ok(words)
}

// The words `at now`.
fn at_now(alloc: Global) -> Result<Words, AllocError>
    ensures { IfOk result (λ words. words ≡ codes "at" ∷ codes "now" ∷ []) }
{
    let mut words = one_word(alloc, "at")?;
    words.push(alloc, "now")?;
    Ok(words)
}

// The words `at now + 30 minutes`.
fn at_now_later(alloc: Global) -> Result<Words, AllocError>
    ensures { IfOk result (λ words.
        words ≡ codes "at" ∷ codes "now" ∷ codes "+" ∷ codes "30" ∷ codes "minutes" ∷ []) }
{
    let mut words = at_now(alloc)?;
    words.push(alloc, "+")?;
    words.push(alloc, "30")?;
    words.push(alloc, "minutes")?;
    Ok(words)
}

// The words that remove the second of the three jobs that the last events submitted.
fn removal(alloc: Global, number: u32) -> Result<Words, AllocError>
    requires { number < MAX_EVENTS }
    ensures { IfOk result (λ words. words ≡ removal_words number) }
{
    let job = 3 * (number / 8) + 2;
    let mut words = one_word(alloc, "atrm")?;
    words.push(alloc, job.to_string(alloc)?.as_str())?;
    Ok(words)
}
