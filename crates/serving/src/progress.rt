//! How far serving has come.
ghost use Rattle.std.specs.Prelude.{◌≡◌, false, None};
ghost use Rattle.host_calls.specs.ClockRange.{IsClockSecond};
ghost use Rattle.tool_output.specs.Outside.{RestsOn, clock_at};
ghost use Rattle.serving.specs.Items.{next_rest};
ghost use Rattle.serving.specs.Outcomes.{end_outcome, kids_outcome, output_outcome, turns_outcome};
ghost use Rattle.serving.specs.inside.NextTurn.{first_end_or, mode_by, outcome_if, rest_if};

use crate::ServeOutcome;
use daemon_turn::{Kid, Mode, TurnEnd};
use host_calls::{LONGEST_REST, Readings, SHORT_REST};
use listing_text::Cause;

// How far serving has come: how the first turn ended, the seconds of the rest before the next one, and whether a put on
// the output failed.
#[derive(Clone, Copy)]
pub(crate) struct Progress {
    pub(crate) first: Option<TurnEnd>,
    pub(crate) rest: u32,
    pub(crate) output_failed: bool,
}

impl Progress {
    // No turn was made.
    pub(crate) fn new() -> Progress
        ensures { result ≡ record { first = None; rest = 0; output_failed = false } }
    {
        Progress {
            first: None,
            rest: 0,
            output_failed: false,
        }
    }

    // The mode of the next turn.
    pub(crate) fn mode(&self, once: bool) -> Mode
        ensures { result ≡ mode_by once self.now.first }
    {
        if once && self.first.is_some() {
            Mode::EndsOnly
        } else {
            Mode::Full
        }
    }

    // Rests before the next turn. There is no rest before the first.
    pub(crate) fn rest_before_turn<R: Readings>(&self, readings: &mut R)
        ensures { RestsOn R.tells (rest_if self.now.first self.now.rest)
            (clock_at R.Readings readings.old) (clock_at R.Readings readings.new) }
    {
        match &self.first {
            Some(_) => readings.rest(self.rest),
            None => {}
        }
    }

    // One more turn was made.
    pub(crate) fn add(&mut self, once: bool, now: i64, end: &TurnEnd)
        requires { IsClockSecond now }
        ensures first { self.new.first ≡ first_end_or self.old.first end.now }
        ensures rest { self.new.rest ≡ next_rest once end.now now }
        ensures output_failed { self.new.output_failed ≡ self.old.output_failed }
    {
        self.first = first_end_or(&self.first, end);
        self.rest = next_rest(once, end, now);
    }

    // What serving comes to after a turn that ended so, if no further one is made.
    pub(crate) fn outcome_after(
        &self,
        once: bool,
        end: &TurnEnd,
        kids: &[Kid],
    ) -> Option<ServeOutcome>
        ensures { result ≡ outcome_if once end.now self.now.first kids.now self.now.output_failed }
    {
        if let TurnEnd::Damaged(damage) = end {
            return Some(ServeOutcome::OfTurn(Cause::Damaged(*damage)));
        }
        if once && kids.is_empty() {
            Some(self.outcome(once, kids))
        } else {
            None
        }
    }

    // What serving comes to where all turns are made.
    pub(crate) fn outcome(&self, once: bool, kids: &[Kid]) -> ServeOutcome
        ensures { result ≡ turns_outcome once self.now.first kids.now self.now.output_failed }
    {
        if !once {
            return output_outcome(self.output_failed);
        }
        let other = kids_outcome(kids, self.output_failed);
        match &self.first {
            Some(end) => end_outcome(end, other),
            None => other,
        }
    }
}

// The end of the first turn, once one more ended so.
fn first_end_or(first: &Option<TurnEnd>, end: &TurnEnd) -> Option<TurnEnd>
    ensures { result ≡ first_end_or first.now end.now }
{
    match first {
        Some(first) => Some(*first),
        None => Some(*end),
    }
}

// The seconds of the rest after a turn.
fn next_rest(once: bool, end: &TurnEnd, now: i64) -> u32
    requires { IsClockSecond now }
    ensures { result ≡ next_rest once end.now now }
{
    if once {
        return SHORT_REST;
    }
    match end {
        TurnEnd::Done => LONGEST_REST - (now.unsigned_abs() % u64::from(LONGEST_REST)) as u32,
        TurnEnd::Busy => SHORT_REST,
        TurnEnd::FileFault => SHORT_REST,
        TurnEnd::Damaged(_) => SHORT_REST,
        TurnEnd::Memory => SHORT_REST,
    }
}

// The output failed, or all was done.
fn output_outcome(output_failed: bool) -> ServeOutcome
    ensures { result ≡ output_outcome output_failed }
{
    if output_failed {
        ServeOutcome::Own(Cause::OutputFault)
    } else {
        ServeOutcome::Own(Cause::Done)
    }
}

// Children that are left come before that.
fn kids_outcome(kids: &[Kid], output_failed: bool) -> ServeOutcome
    ensures { result ≡ kids_outcome kids.now output_failed }
{
    match kids {
        [] => output_outcome(output_failed),
        [..] => ServeOutcome::Own(Cause::StillRunning),
    }
}

// What a turn ended with, unless it was done.
fn end_outcome(end: &TurnEnd, other: ServeOutcome) -> ServeOutcome
    ensures { result ≡ end_outcome end.now other }
{
    match end {
        TurnEnd::Done => other,
        TurnEnd::Busy => ServeOutcome::OfTurn(Cause::Busy),
        TurnEnd::FileFault => ServeOutcome::OfTurn(Cause::FileFault),
        TurnEnd::Damaged(damage) => ServeOutcome::OfTurn(Cause::Damaged(*damage)),
        TurnEnd::Memory => ServeOutcome::OfTurn(Cause::Memory),
    }
}
