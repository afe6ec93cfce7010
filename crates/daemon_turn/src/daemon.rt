//! The daemon: it keeps the children that it started, and makes turns.
ghost use Rattle.host_calls.specs.ClockRange.{IsClockSecond};
ghost use Rattle.std.specs.Prelude.{◌≡◌};
ghost use Rattle.host_calls.specs.Session.{IsOutside};
ghost use Rattle.daemon_turn.specs.Daemons.{new_daemon};
ghost use Rattle.daemon_turn.specs.Kids.{AreKidsByNumber, AreChildren};
ghost use Rattle.daemon_turn.specs.TurnOutcome.{TurnsTo};

use crate::{
    Kid, Mode, TurnEnd, TurnInput, TurnReport, TurnStep, TurnSteps, Turning, end_of_session,
};
use host_calls::{Host, in_session};
use std::alloc::Global;
use std::marker::Model;
use std::mem;

/// A daemon: its children, by number, the limit of the load in hundredths, and how many seconds lie between two
/// starts in batch queues.
#[derive(Drop)]
pub struct Daemon {
    kids: Vec<Kid>,
    limit: u32,
    interval: u32,
}

impl Model for Daemon {
    ghost use Rattle.daemon_turn.specs.Daemons.{DaemonState, daemon_code};
    ghost use Rattle.daemon_turn.specs.Kids.{AreKidsByNumber};

    ghost Value = { DaemonState };

    ghost coded = { daemon_code };

    ghost view = { λ daemon. record { kids = daemon.kids.items; limit = daemon.limit; interval = daemon.interval } };

    ghost invariant = { λ daemon. AreKidsByNumber daemon.kids.items };
}

impl Daemon {
    /// A daemon without children. It takes no memory.
    pub fn new(alloc: Global, limit: u32, interval: u32) -> Daemon
        ensures { result ≡ new_daemon limit interval }
    {
        Daemon {
            kids: Vec::new(alloc),
            limit,
            interval,
        }
    }

    /// The limit of the load in hundredths: at it or above it no batch job starts.
    pub fn limit(&self) -> u32
        ensures { result ≡ self.now.limit }
    {
        self.limit
    }

    /// How many seconds lie between two starts in batch queues.
    pub fn interval(&self) -> u32
        ensures { result ≡ self.now.interval }
    {
        self.interval
    }

    /// The children, by number.
    pub fn kids(&self) -> &[Kid]
        ensures kids { result.now ≡ self.now.kids }
        ensures ordered { AreKidsByNumber result.now }
    {
        self.kids.as_slice()
    }

    /// Makes one turn: gives up the jobs that run and that no child names, polls the children and ends the jobs of
    /// those that have ended, starts the jobs that are due, and forgets the lowest done numbers.
    pub fn turn<H: Host>(
        &mut self,
        alloc: Global,
        host: &mut H,
        now: i64,
        load: Option<u32>,
        mode: Mode,
    ) -> TurnReport
        requires outside { IsOutside (H.session host.old) }
        requires now { IsClockSecond now }
        requires children { AreChildren (H.session host.old).children self.old.kids }
        ensures { TurnsTo H.tells H.alone (record { now = now; load = load; mode = mode })
            (record { session = H.session host.old; world = H.world host.old; daemon = self.old })
            (record { session = H.session host.new; world = H.world host.new; daemon = self.new })
            result.end result.steps }
    {
        let limit = self.limit;
        let interval = self.interval;
        let at = TurnInput { now, load, mode };
        let mut turning = Turning {
            kids: mem::replace(&mut self.kids, Vec::new(alloc)),
            steps: Vec::new(alloc),
        };
        let worked = in_session(
            alloc,
            host,
            &mut |host| turning.work(alloc, host, limit, interval, at),
        );
        let Turning { kids, steps } = turning;
        self.kids = kids;
        turn_report(end_of_session(worked), steps)
    }
}

// The report of a turn.
fn turn_report(end: TurnEnd, steps: Vec<TurnStep>) -> TurnReport
    ensures end { result.end ≡ end }
    ensures steps { result.steps ≡ steps.items }
{
    TurnReport {
        end,
        steps: TurnSteps::from(steps),
    }
}
