//! Scenarios as far as they were read.
ghost use Rattle.std.specs.Prelude.{OnOk, IsSome};

use crate::Why;
use crate::event::{ScenarioEvent, event_of};
use crate::machine::Machine;
use crate::opening::{Opening, PARTS};
use crate::settings::Settings;
use crate::transcript::Transcript;
use crate::values::{lookup, one, text_word};
use crate::words::words_of_line;
use std::alloc::Global;
use std::mem;

/// A scenario as far as it was read.
#[derive(Drop)]
struct Scene {
    settings: Settings,
    opening: Opening,
    /// What the events happen on, from the first one on.
    machine: Option<Machine>,
}

/// The scenarios of a file, up to the line that is read next.
#[derive(Drop)]
pub struct Scenes {
    last: Option<Scene>,
}

impl Scenes {
    /// No scenario has begun.
    pub fn new() -> Scenes {
        Scenes { last: None }
    }

    /// Does what a line says, and prints what happens.
    pub fn take(
        &mut self,
        alloc: Global,
        line: &[u8],
        transcript: &mut Transcript,
    ) -> Result<(), Why> {
        if line.is_empty() || line[0] == b'#' {
            return Ok(());
        }
        let words = words_of_line(alloc, line)?;
        let taken = self.take_words(alloc, &words, transcript);
        drop(words);
        taken
    }

    // Does what the words of a line say.
    fn take_words(
        &mut self,
        alloc: Global,
        words: &[Vec<u8>],
        transcript: &mut Transcript,
    ) -> Result<(), Why> {
        match words {
            [] => Ok(()),
            [first, rest @ ..] if first.as_slice() == b"scenario".as_slice() => {
                self.begin(alloc, rest, transcript)
            }
            [first, rest @ ..] => match &mut self.last {
                Some(scene) => scene.take(alloc, first, rest, transcript),
                None => Err(Why::NoScenario),
            },
        }
    }

    // Begins a scenario of the name that the one word says.
    fn begin(
        &mut self,
        alloc: Global,
        rest: &[Vec<u8>],
        transcript: &mut Transcript,
    ) -> Result<(), Why> {
        let name = text_word(one(rest)?)?;
        self.last = Some(Scene::new(alloc)?);
        let line = format!(in alloc; "scenario {name}")?;
        Ok(transcript.line(line.as_str())?)
    }
}

impl Scene {
    // No event has happened, and nothing is set.
    fn new(alloc: Global) -> Result<Scene, Why> {
        let settings = Settings::new(alloc)?;
        Ok(Scene {
            settings,
            opening: Opening::new(alloc)?,
            machine: None,
        })
    }

    // Does what a line within a scenario says.
    fn take(
        &mut self,
        alloc: Global,
        word: &[u8],
        rest: &[Vec<u8>],
        transcript: &mut Transcript,
    ) -> Result<(), Why> {
        if self.settings.take(alloc, word, rest)? {
            return Ok(());
        }
        match lookup(&PARTS, word) {
            Some(_) if self.machine.is_some() => Err(Why::Partial),
            Some(opening) => self.opening.take(alloc, opening, rest),
            None => self.take_event(alloc, word, rest, transcript),
        }
    }

    // Makes the event that a line says, the first one on the machine that the opening says.
    fn take_event(
        &mut self,
        alloc: Global,
        word: &[u8],
        rest: &[Vec<u8>],
        transcript: &mut Transcript,
    ) -> Result<(), Why> {
        let event = event_of(alloc, word, rest)?;
        let made = self.make(alloc, &event, transcript);
        drop(event);
        made
    }

    fn make(
        &mut self,
        alloc: Global,
        event: &ScenarioEvent,
        transcript: &mut Transcript,
    ) -> Result<(), Why> {
        if self.machine.is_none() {
            self.open(alloc)?;
        }
        match &mut self.machine {
            Some(machine) => machine.make(alloc, event, &self.settings, transcript),
            None => unreachable!(),
        }
    }

    // Makes the machine that the opening says.
    fn open(&mut self, alloc: Global) -> Result<(), Why>
        ensures { OnOk result (IsSome self.new.machine) }
    {
        let opening = mem::replace(&mut self.opening, Opening::new(alloc)?);
        self.machine = Some(Machine::new(alloc, opening.host(alloc)?));
        Ok(())
    }
}
