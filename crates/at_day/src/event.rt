//! An event of a day.
ghost use Rattle.std.specs.Prelude.{◌≡◌, map, string_bytes};
ghost use Rattle.std.specs.List.{list_all};
ghost use Rattle.at_words.specs.Tools.{tool_of_words};
ghost use Rattle.at_day.specs.EventsDays.{is_day_event, is_day_tool};

use crate::Words;
use at_words::{Tool, tool_of};
use host_calls::{Bytes, is_clock_second};
use tool_output::Caller;

/// What happens on a machine.
#[derive(Drop)]
pub enum Event {
    /// A command is given at a second. Its input is both standard input and each file.
    Command {
        words: Words,
        caller: Caller,
        input: Bytes,
        now: i64,
    },
    /// The daemon makes a full turn, at a second and under a load in hundredths, if one could be read.
    Turn {
        now: i64,
        load: Option<u32>,
    },
    /// The machine crashes, and comes up with the image that the pick names. From call number `fuse` on, no call on the
    /// spool directory gets through.
    Reboot {
        pick: u64,
        fuse: Option<u64>,
    },
}

/// Whether a day can have the event: the command is one of `at`, `batch`, `atq` and `atrm` under a umask that there is,
/// and the second of a turn lies in the clock's range.
pub fn is_day_event(event: &Event) -> bool
    ensures { result ≡ is_day_event event.now }
{
    match event {
        Event::Command { words, caller, .. } => {
            names_day_tool(words.as_slice()) && caller.context.umask < 512
        }
        Event::Turn { now, .. } => is_clock_second(*now),
        Event::Reboot { .. } => true,
    }
}

/// Whether a day can have each of the events.
pub fn are_day_events(events: &[Event]) -> bool
    ensures { result ≡ list_all is_day_event events.now }
{
    events.iter().all(is_day_event)
}

// Whether the words name a tool that a day can have.
fn names_day_tool(words: &[String]) -> bool
    ensures { result ≡ is_day_tool (tool_of_words (map string_bytes words.now)) }
{
    match tool_of(words) {
        Some((Tool::At, _)) => true,
        Some((Tool::Batch, _)) => true,
        Some((Tool::Atq, _)) => true,
        Some((Tool::Atrm, _)) => true,
        Some((Tool::Atd, _)) => false,
        Some((Tool::Atday, _)) => false,
        None => false,
    }
}
