//! Why a request is refused.
use std::fmt;

/// A refusal: the request was understood to be one that may not be done, and nothing of it was.
#[derive(Clone, Copy, Debug, PartialEq, Eq)]
pub enum Refusal {
    /// The words are no request of the tool.
    Usage,
    /// The lists of users don't permit this one.
    NotAllowed,
    /// The time can't be read at this byte of the operands.
    Timespec { place: u64 },
    /// The calendar lacks the day.
    NoSuchDay,
    /// The time leaves the calendar or the clock's range.
    OutOfRange,
    /// The time lies before this minute.
    Past,
    /// The value of `-t` isn't of its form.
    BadTimeArg,
    /// The time zone can't be read.
    BadZone,
    /// The value of `-q` names no queue.
    BadQueue,
    /// The directory can't are in a job.
    BadDirectory,
    /// The user's name can't are in a job.
    BadUser,
    /// There are too many bytes of commands.
    TooLong,
    /// There are too many bytes of variables.
    EnvironmentTooLarge,
    /// There are too many live jobs.
    QueueFull,
    /// Every job number was drawn.
    NumbersUsedUp,
    /// No live job has this number.
    NoSuchJob(u32),
    /// The job is another user's.
    NotYours(u32),
    /// The job runs, so it can't be removed.
    RunningJob(u32),
    /// The clock shows a time outside its range.
    BadClock,
    /// A line of the crontab, counted from 1, is neither an entry nor ignored.
    BadCrontab(u32),
    /// The accounts have room for no more records.
    AccountsFull,
    /// The directory that is to be written holds a spool.
    TargetNotEmpty,
}

impl fmt::Display for Refusal {
    ghost use Rattle.std.specs.Prelude.{Some};
    ghost use Rattle.listing_text.specs.Refusal.{refusal_text};

    ghost output = { λ refusal. Some (refusal_text refusal) };

    fn fmt<W: fmt::Write>(&self, f: &mut fmt::Formatter<W>) -> fmt::Result {
        match self {
            Refusal::Usage => f.write_str("usage"),
            Refusal::NotAllowed => f.write_str("not allowed"),
            Refusal::Timespec { place } => write!(f, "bad time at byte {place}"),
            Refusal::NoSuchDay => f.write_str("no such day"),
            Refusal::OutOfRange => f.write_str("time out of range"),
            Refusal::Past => f.write_str("time is past"),
            Refusal::BadTimeArg => f.write_str("bad -t time"),
            Refusal::BadZone => f.write_str("bad TZ"),
            Refusal::BadQueue => f.write_str("bad queue"),
            Refusal::BadDirectory => f.write_str("bad directory"),
            Refusal::BadUser => f.write_str("bad user name"),
            Refusal::TooLong => f.write_str("commands too long"),
            Refusal::EnvironmentTooLarge => f.write_str("environment too large"),
            Refusal::QueueFull => f.write_str("queue full"),
            Refusal::NumbersUsedUp => f.write_str("job numbers used up"),
            Refusal::NoSuchJob(number) => write!(f, "no such job {number}"),
            Refusal::NotYours(number) => write!(f, "job {number} is not yours"),
            Refusal::RunningJob(number) => write!(f, "job {number} is running"),
            Refusal::BadClock => f.write_str("bad clock"),
            Refusal::BadCrontab(line) => write!(f, "bad crontab at line {line}"),
            Refusal::AccountsFull => f.write_str("accounts full"),
            Refusal::TargetNotEmpty => f.write_str("target not empty"),
        }
    }
}
