//! An entry of a crontab: a line with five patterns and a command.
ghost use Rattle.std.specs.Prelude.{◌≡◌, ◌<◌, ◌≤◌, IfOk, IfSome, length};
ghost use Rattle.std.specs.List.{position};
ghost use Rattle.text_reader.specs.Blanks.{is_blank};
ghost use Rattle.text_reader.specs.ReadResult.{read_view};
ghost use Rattle.cron_text.specs.Entry.{is_command};
ghost use Rattle.cron_text.specs.inside.Reader as Reader;

use crate::Field;
use crate::field::read_field;
use host_calls::Bytes;
use job_script::is_without_zero;
use std::alloc::{AllocError, Global};
use text_reader::after_blanks;

/// When a command is due, and the command as its line has it.
#[derive(Drop)]
pub struct CronEntry {
    pub minute: Field,
    pub hour: Field,
    pub day: Field,
    pub month: Field,
    pub weekday: Field,
    pub command: Bytes,
}

// The five patterns of an entry.
#[derive(Clone, Copy)]
pub(crate) struct Schedule {
    pub minute: Field,
    pub hour: Field,
    pub day: Field,
    pub month: Field,
    pub weekday: Field,
}

/// The entry that the line spells, if it spells one.
pub(crate) fn read_entry(alloc: Global, line: &[u8]) -> Result<Option<CronEntry>, AllocError>
    ensures { IfOk result (λ entry. entry ≡ Reader.entry_in_line line.now) }
{
    let Some((schedule, command)) = read_line(line) else {
        return Ok(None);
    };
    let command = Bytes::of(alloc, command)?;
    Ok(Some(cron_entry(&schedule, command)))
}

fn cron_entry(schedule: &Schedule, command: Bytes) -> CronEntry
    ensures { result ≡ Reader.cron_entry schedule.now command }
{
    CronEntry {
        minute: schedule.minute,
        hour: schedule.hour,
        day: schedule.day,
        month: schedule.month,
        weekday: schedule.weekday,
        command,
    }
}

#[tactic(auto, unfolding(crate::specs::inside::Reader::line_in))]
fn read_line(line: &[u8]) -> Option<(Schedule, &[u8])>
    ensures { read_view result ≡ Reader.line_in line.now }
{
    let (schedule, command) = read_schedule(line)?;
    is_command(command).then_some((schedule, command))
}

fn is_command(command: &[u8]) -> bool
    ensures { result ≡ is_command command.now }
{
    !command.is_empty() && is_without_zero(command)
}

#[tactic(auto, unfolding(crate::specs::inside::Reader::schedule_in))]
fn read_schedule(line: &[u8]) -> Option<(Schedule, &[u8])>
    ensures { read_view result ≡ Reader.schedule_in line.now }
{
    let (minute, rest) = read_first(0, 59, after_blanks(line))?;
    let (hour, rest) = read_first(0, 23, rest)?;
    let (day, rest) = read_first(1, 31, rest)?;
    let (month, rest) = read_first(1, 12, rest)?;
    let (weekday, command) = read_first(0, 6, rest)?;
    let schedule = Schedule {
        minute,
        hour,
        day,
        month,
        weekday,
    };
    Some((schedule, command))
}

// The pattern that the text begins with, and what comes after the blanks next to it.
#[tactic(auto, unfolding(crate::specs::inside::Reader::first_in))]
fn read_first(low: u8, high: u8, text: &[u8]) -> Option<(Field, &[u8])>
    requires ordered { low ≤ high }
    requires small { high < 60 }
    ensures { read_view result ≡ Reader.first_in low high text.now }
{
    let (pattern, rest) = text.split_at(first_blank(text)?);
    let field = read_field(low, high, pattern)?;
    Some((field, after_blanks(rest)))
}

fn first_blank(text: &[u8]) -> Option<usize>
    ensures place { result ≡ position is_blank text.now }
    ensures within { IfSome result (λ place. place < length text.now) }
{
    text.iter().position(|byte| *byte == b' ' || *byte == b'\t')
}
