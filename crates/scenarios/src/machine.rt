//! The machine on which the events of a scenario happen: a spool directory in memory, and a daemon over it.
ghost use Rattle.host_calls.specs.Session.{IsOutside};
ghost use Rattle.memory_host.specs.Host.{memory_session};
ghost use Rattle.scenarios.specs.Machine.{HaveChildren};

use crate::Why;
use crate::event::{Call, ScenarioEvent};
use crate::printed::{counts_line, show_asked, show_handed, show_run, show_turn};
use crate::settings::Settings;
use crate::transcript::Transcript;
use at_account::account_program;
use at_day::{INTERVAL, LIMIT, day, program};
use at_mail::post_program;
use at_stat::stat_program;
use cron_turn::cron_program;
use daemon_turn::{Daemon, Mode};
use host_calls::is_clock_second;
use memory_host::{Files, MemoryHost, Plan};
use spool_check::check_program;
use std::alloc::{AllocError, Global};

/// A spool directory in memory, and a daemon whose children are children of it.
#[derive(Drop)]
pub struct Machine {
    host: MemoryHost,
    daemon: Daemon,
    ghost outside: { IsOutside (memory_session host) },
    ghost children: { HaveChildren (memory_session host).children daemon.kids },
}

impl Machine {
    /// The machine of this host, with a daemon that has the limit and the interval of a day, which `atd` has at first.
    pub fn new(alloc: Global, host: MemoryHost) -> Machine
        requires { IsOutside (memory_session host) }
    {
        Machine {
            host,
            daemon: Daemon::new(alloc, LIMIT, INTERVAL),
        }
    }

    /// Makes an event, and prints what happens.
    pub fn make(
        &mut self,
        alloc: Global,
        event: &ScenarioEvent,
        settings: &Settings,
        transcript: &mut Transcript,
    ) -> Result<(), Why> {
        match event {
            ScenarioEvent::Call(call, words) => {
                Ok(self.call(alloc, *call, words, settings, transcript)?)
            }
            ScenarioEvent::Daemon(limit, interval) => {
                self.daemon = Daemon::new(alloc, *limit, *interval);
                Ok(())
            }
            ScenarioEvent::Turn(now, load) => self.turn(alloc, *now, *load, transcript),
            ScenarioEvent::Reboot(pick, fuse) => Ok(self.reboot(alloc, *pick, *fuse, transcript)?),
            ScenarioEvent::Counts => Ok(self.counts(alloc, transcript)?),
            ScenarioEvent::Show => Ok(self.show(alloc, transcript)?),
        }
    }

    // Calls a program, and prints how it ended.
    fn call(
        &mut self,
        alloc: Global,
        call: Call,
        words: &[String],
        settings: &Settings,
        transcript: &mut Transcript,
    ) -> Result<(), AllocError> {
        match call {
            Call::Run => self.run(alloc, words, settings, transcript),
            Call::Account => self.account(alloc, words, settings, transcript),
            Call::Stat => self.stat(alloc, words, settings, transcript),
            Call::Post => self.post(alloc, words, settings, transcript),
            Call::Cron => self.cron(alloc, words, settings, transcript),
            Call::Check => self.check(alloc, words, settings, transcript),
            Call::Salvage => self.salvage(alloc, words, settings, transcript),
        }
    }

    // Makes a full turn of the daemon, and prints how it ended and the steps that it reports.
    fn turn(
        &mut self,
        alloc: Global,
        now: i64,
        load: Option<u32>,
        transcript: &mut Transcript,
    ) -> Result<(), Why> {
        if !is_clock_second(now) {
            return Err(Why::Number);
        }
        let report = self
            .daemon
            .turn(alloc, &mut self.host, now, load, Mode::Full);
        Ok(show_turn(alloc, &report, transcript)?)
    }

    // Does what the words request.
    fn run(
        &mut self,
        alloc: Global,
        words: &[String],
        settings: &Settings,
        transcript: &mut Transcript,
    ) -> Result<(), AllocError> {
        let mut readings = settings.readings(alloc)?;
        let mut inputs = settings.inputs(alloc)?;
        let mut out = settings.out(alloc);
        let mut err = settings.err(alloc);
        let status = program(
            alloc,
            words,
            &settings.caller,
            &mut self.host,
            &mut readings,
            &mut inputs,
            &mut out,
            &mut err,
        );
        let (out, err, rested) = (out.content(), err.content(), readings.rested());
        show_run(alloc, "run", status.code, out, err, rested, transcript)
    }

    // Counts the jobs, as the words request it.
    fn account(
        &mut self,
        alloc: Global,
        words: &[String],
        settings: &Settings,
        transcript: &mut Transcript,
    ) -> Result<(), AllocError> {
        let mut out = settings.out(alloc);
        let mut err = settings.err(alloc);
        let status = account_program(alloc, words, &mut self.host, &mut out, &mut err);
        let (out, err) = (out.content(), err.content());
        show_run(alloc, "account", status.code, out, err, 0, transcript)
    }

    // Shows what became of the jobs, as the words request it.
    fn stat(
        &mut self,
        alloc: Global,
        words: &[String],
        settings: &Settings,
        transcript: &mut Transcript,
    ) -> Result<(), AllocError> {
        let mut readings = settings.readings(alloc)?;
        let mut out = settings.out(alloc);
        let mut err = settings.err(alloc);
        let status = stat_program(
            alloc,
            words,
            &settings.caller,
            &mut self.host,
            &mut readings,
            &mut out,
            &mut err,
        );
        let (out, err, rested) = (out.content(), err.content(), readings.rested());
        show_run(alloc, "stat", status.code, out, err, rested, transcript)
    }

    // Makes sessions of mail, as the words request it.
    fn post(
        &mut self,
        alloc: Global,
        words: &[String],
        settings: &Settings,
        transcript: &mut Transcript,
    ) -> Result<(), AllocError> {
        let mut readings = settings.readings(alloc)?;
        let mut err = settings.err(alloc);
        let status = post_program(alloc, words, &mut self.host, &mut readings, &mut err);
        let (err, rested) = (err.content(), readings.rested());
        show_run(alloc, "post", status.code, &[], err, rested, transcript)
    }

    // Makes sessions of a crontab, as the words request it.
    fn cron(
        &mut self,
        alloc: Global,
        words: &[String],
        settings: &Settings,
        transcript: &mut Transcript,
    ) -> Result<(), AllocError> {
        let mut readings = settings.readings(alloc)?;
        let mut inputs = settings.inputs(alloc)?;
        let mut err = settings.err(alloc);
        let status = cron_program(
            alloc,
            words,
            &settings.caller,
            &mut self.host,
            &mut readings,
            &mut inputs,
            &mut err,
        );
        let (err, rested) = (err.content(), readings.rested());
        show_run(alloc, "cron", status.code, &[], err, rested, transcript)
    }

    // Lists the faults of the directory, as the words request it. What is saved goes into a directory of its own.
    fn check(
        &mut self,
        alloc: Global,
        words: &[String],
        settings: &Settings,
        transcript: &mut Transcript,
    ) -> Result<(), AllocError> {
        let mut target = MemoryHost::make(alloc, Files::new(alloc), Plan::quiet(alloc))?;
        let mut out = settings.out(alloc);
        let mut err = settings.err(alloc);
        let status = check_program(
            alloc,
            words,
            &mut self.host,
            &mut target,
            &mut out,
            &mut err,
        );
        drop(target);
        let (out, err) = (out.content(), err.content());
        show_run(alloc, "check", status.code, out, err, 0, transcript)
    }

    // Saves what the directory has into one of its own, as the words request it, goes on in that one with a new daemon,
    // and prints its files.
    fn salvage(
        &mut self,
        alloc: Global,
        words: &[String],
        settings: &Settings,
        transcript: &mut Transcript,
    ) -> Result<(), AllocError> {
        let mut target = MemoryHost::make(alloc, Files::new(alloc), Plan::quiet(alloc))?;
        let mut out = settings.out(alloc);
        let mut err = settings.err(alloc);
        let status = check_program(
            alloc,
            words,
            &mut self.host,
            &mut target,
            &mut out,
            &mut err,
        );
        self.host = target;
        self.daemon = Daemon::new(alloc, self.daemon.limit(), self.daemon.interval());
        let (out, err) = (out.content(), err.content());
        show_run(alloc, "salvage", status.code, out, err, 0, transcript)?;
        self.show_files(alloc, transcript)
    }

    // Prints what a day without events counts.
    fn counts(&mut self, alloc: Global, transcript: &mut Transcript) -> Result<(), AllocError> {
        let report = day(alloc, &[], &mut self.host)?;
        transcript.line(counts_line(alloc, &report.counts)?.as_str())
    }

    // Crashes, and comes up with the image that the pick names.
    fn reboot(
        &mut self,
        alloc: Global,
        pick: u64,
        fuse: Option<u64>,
        transcript: &mut Transcript,
    ) -> Result<(), AllocError> {
        self.host.reboot(alloc, pick, fuse)?;
        self.daemon = Daemon::new(alloc, self.daemon.limit(), self.daemon.interval());
        transcript.line("reboot")
    }

    // Prints the directory, what was started and what was asked.
    fn show(&self, alloc: Global, transcript: &mut Transcript) -> Result<(), AllocError> {
        transcript.line("show")?;
        self.show_files(alloc, transcript)?;
        for handed in self.host.handed() {
            show_handed(alloc, handed, transcript)?;
        }
        for asked in self.host.asked() {
            show_asked(alloc, asked, transcript)?;
        }
        Ok(())
    }

    fn show_files(&self, alloc: Global, transcript: &mut Transcript) -> Result<(), AllocError> {
        for name in self.host.names_now(alloc)? {
            let text = str::from_utf8(name.as_bytes()).unwrap_or("");
            let before = format!(in alloc; "  file {text}")?;
            if let Some(bytes) = self.host.reading(&name) {
                transcript.quoted(before.as_str(), bytes)?;
            }
        }
        Ok(())
    }
}
