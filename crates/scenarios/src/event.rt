//! What happens in a scenario.
use crate::Why;
use crate::values::{load, lookup, none, number_word, second_word, text_word, two};
use std::alloc::{AllocError, Global};

/// What a line calls, by all its words.
#[derive(Clone, Copy)]
pub enum Call {
    /// A tool.
    Run,
    /// The program that counts jobs.
    Account,
    /// The program that shows what became of jobs.
    Stat,
    /// The program that mails ends of jobs.
    Post,
    /// The program of a crontab.
    Cron,
    /// The checker.
    Check,
    /// The same, after which the machine goes on in the directory of what was saved.
    Salvage,
}

/// An event of a scenario.
#[derive(Drop)]
pub enum ScenarioEvent {
    /// A call, with all its words.
    Call(Call, Vec<String>),
    /// A new daemon without children, with this limit of the load and this interval between batch starts.
    Daemon(u32, u32),
    /// One full turn of the daemon, at this second and with this load.
    Turn(i64, Option<u32>),
    /// A crash, and the machine comes up again.
    Reboot(u64, Option<u64>),
    /// What the directory counts is printed.
    Counts,
    /// The directory, what was started and what was asked are printed.
    Show,
}

static CALLS: [(&str, Call); 7] = [
    ("run", Call::Run),
    ("account", Call::Account),
    ("stat", Call::Stat),
    ("post", Call::Post),
    ("cron", Call::Cron),
    ("check", Call::Check),
    ("salvage", Call::Salvage),
];

/// The event that a line says by its first word and the rest of its words.
pub fn event_of(alloc: Global, word: &[u8], rest: &[Vec<u8>]) -> Result<ScenarioEvent, Why> {
    if let Some(call) = lookup(&CALLS, word) {
        return Ok(ScenarioEvent::Call(call, texts(alloc, rest)?));
    }
    match word {
        b"daemon" => {
            let (limit, interval) = two(rest)?;
            Ok(ScenarioEvent::Daemon(number_word(limit)?, number_word(interval)?))
        }
        b"turn" => {
            let (now, read) = two(rest)?;
            Ok(ScenarioEvent::Turn(second_word(now)?, load(read)?))
        }
        b"reboot" => reboot_event(rest),
        b"counts" => none(rest).map(|()| ScenarioEvent::Counts),
        b"show" => none(rest).map(|()| ScenarioEvent::Show),
        _ => Err(Why::NoSuchLine),
    }
}

fn reboot_event(rest: &[Vec<u8>]) -> Result<ScenarioEvent, Why> {
    match rest {
        [pick] => Ok(ScenarioEvent::Reboot(number_word(pick)?, None)),
        [pick, fuse] => Ok(ScenarioEvent::Reboot(number_word(pick)?, Some(number_word(fuse)?))),
        _ => Err(Why::Count),
    }
}

// The words as texts.
fn texts(alloc: Global, words: &[Vec<u8>]) -> Result<Vec<String>, Why> {
    let mut all = Vec::new(alloc);
    for word in words {
        let word = String::from_str(alloc, text_word(word)?)?;
        all.push(word).map_err(|_| Why::Memory)?;
    }
    Ok(all)
}
