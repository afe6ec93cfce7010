//! Who calls, and what the calls read.
ghost use Rattle.std.specs.Prelude.{◌<◌, IfOk, vec_len};

use crate::Why;
use crate::values::{load, lookup, none, number_word, one, second_word, text_word, two, umask};
use at_day::Caller;
use civil_minute::{Zone, zone_of};
use host_calls::Text;
use job_script::{Context, Variables};
use memory_host::{ListReadings, MemoryInputs, MemorySink};
use std::alloc::{AllocError, Global};

/// Who calls, and what each later call reads and writes.
#[derive(Drop)]
pub struct Settings {
    pub caller: Caller,
    nows: Vec<i64>,
    loads: Vec<Option<u32>>,
    input: Vec<u8>,
    is_file: bool,
    inputs_fail: bool,
    failing_out: Option<u64>,
    failing_err: Option<u64>,
    ghost some_now: { 0 < vec_len nows },
    ghost some_load: { 0 < vec_len loads },
    ghost umask: { caller.context.umask < 512 },
}

// What a line of the settings sets.
#[derive(Clone, Copy)]
enum Setting {
    User,
    Directory,
    Umask,
    NoVariables,
    Variable,
    Zone,
    NoZone,
    Now,
    Load,
    Input,
    NoFile,
    FailingInput,
    FailingOut,
    FailingErr,
    SoundOutside,
}

static SETTINGS: [(&str, Setting); 15] = [
    ("user", Setting::User),
    ("directory", Setting::Directory),
    ("umask", Setting::Umask),
    ("no-variables", Setting::NoVariables),
    ("variable", Setting::Variable),
    ("zone", Setting::Zone),
    ("no-zone", Setting::NoZone),
    ("now", Setting::Now),
    ("load", Setting::Load),
    ("input", Setting::Input),
    ("no-file", Setting::NoFile),
    ("failing-input", Setting::FailingInput),
    ("failing-out", Setting::FailingOut),
    ("failing-err", Setting::FailingErr),
    ("sound-outside", Setting::SoundOutside),
];

impl Settings {
    /// The user `ann` at home, on the first second of 2025, with nothing to read.
    pub fn new(alloc: Global) -> Result<Settings, AllocError> {
        let mut environment = Variables::new(alloc);
        environment.push(alloc, "HOME", "/home/ann")?;
        Ok(Settings {
            caller: Caller {
                context: Context {
                    user: Text::of(alloc, "ann")?,
                    directory: Text::of(alloc, "/home/ann")?,
                    umask: 0o022,
                    environment,
                },
                zone: Zone::Utc,
            },
            nows: vec![in alloc; 1_735_689_600]?,
            loads: vec![in alloc; None]?,
            input: Vec::new(alloc),
            is_file: true,
            inputs_fail: false,
            failing_out: None,
            failing_err: None,
        })
    }

    /// Takes a line, if it is one of the settings.
    pub fn take(&mut self, alloc: Global, word: &[u8], rest: &[Vec<u8>]) -> Result<bool, Why> {
        match lookup(&SETTINGS, word) {
            Some(setting) => {
                self.set(alloc, setting, rest)?;
                Ok(true)
            }
            None => Ok(false),
        }
    }

    // Takes a line of this setting, without its first word.
    fn set(&mut self, alloc: Global, setting: Setting, rest: &[Vec<u8>]) -> Result<(), Why> {
        match setting {
            Setting::User => self.set_user(alloc, rest),
            Setting::Directory => self.set_directory(alloc, rest),
            Setting::Umask => self.set_umask(rest),
            Setting::NoVariables => self.clear_variables(alloc, rest),
            Setting::Variable => self.add_variable(alloc, rest),
            Setting::Zone => self.set_zone(alloc, rest),
            Setting::NoZone => self.clear_zone(rest),
            Setting::Now => self.set_nows(alloc, rest),
            Setting::Load => self.set_loads(alloc, rest),
            Setting::Input => self.set_input(alloc, rest),
            Setting::NoFile => self.clear_file(rest),
            Setting::FailingInput => self.fail_inputs(rest),
            Setting::FailingOut => self.fail_out(rest),
            Setting::FailingErr => self.fail_err(rest),
            Setting::SoundOutside => self.mend_outside(rest),
        }
    }

    fn set_user(&mut self, alloc: Global, rest: &[Vec<u8>]) -> Result<(), Why> {
        self.caller.context.user = Text::of(alloc, text_word(one(rest)?)?)?;
        Ok(())
    }

    fn set_directory(&mut self, alloc: Global, rest: &[Vec<u8>]) -> Result<(), Why> {
        self.caller.context.directory = Text::of(alloc, text_word(one(rest)?)?)?;
        Ok(())
    }

    fn set_umask(&mut self, rest: &[Vec<u8>]) -> Result<(), Why> {
        self.caller.context.umask = umask(one(rest)?)?;
        Ok(())
    }

    fn clear_variables(&mut self, alloc: Global, rest: &[Vec<u8>]) -> Result<(), Why> {
        none(rest)?;
        self.caller.context.environment = Variables::new(alloc);
        Ok(())
    }

    fn add_variable(&mut self, alloc: Global, rest: &[Vec<u8>]) -> Result<(), Why> {
        let (name, value) = two(rest)?;
        let variables = &mut self.caller.context.environment;
        Ok(variables.push(alloc, text_word(name)?, text_word(value)?)?)
    }

    fn set_zone(&mut self, alloc: Global, rest: &[Vec<u8>]) -> Result<(), Why> {
        self.caller.zone = zone_of(alloc, Some(text_word(one(rest)?)?))?;
        Ok(())
    }

    fn clear_zone(&mut self, rest: &[Vec<u8>]) -> Result<(), Why> {
        none(rest)?;
        self.caller.zone = Zone::Utc;
        Ok(())
    }

    fn set_nows(&mut self, alloc: Global, rest: &[Vec<u8>]) -> Result<(), Why> {
        self.nows = each(alloc, rest, second_word)?;
        Ok(())
    }

    fn set_loads(&mut self, alloc: Global, rest: &[Vec<u8>]) -> Result<(), Why> {
        self.loads = each(alloc, rest, load)?;
        Ok(())
    }

    fn set_input(&mut self, alloc: Global, rest: &[Vec<u8>]) -> Result<(), Why> {
        self.input = Vec::from_slice(alloc, one(rest)?)?;
        Ok(())
    }

    fn clear_file(&mut self, rest: &[Vec<u8>]) -> Result<(), Why> {
        none(rest)?;
        self.is_file = false;
        Ok(())
    }

    fn fail_inputs(&mut self, rest: &[Vec<u8>]) -> Result<(), Why> {
        none(rest)?;
        self.inputs_fail = true;
        Ok(())
    }

    fn fail_out(&mut self, rest: &[Vec<u8>]) -> Result<(), Why> {
        self.failing_out = Some(number_word(one(rest)?)?);
        Ok(())
    }

    fn fail_err(&mut self, rest: &[Vec<u8>]) -> Result<(), Why> {
        self.failing_err = Some(number_word(one(rest)?)?);
        Ok(())
    }

    // From here on all that calls read and write is sound.
    fn mend_outside(&mut self, rest: &[Vec<u8>]) -> Result<(), Why> {
        none(rest)?;
        self.is_file = true;
        self.inputs_fail = false;
        self.failing_out = None;
        self.failing_err = None;
        Ok(())
    }

    /// The clock and the load of a call.
    pub fn readings(&self, alloc: Global) -> Result<ListReadings, AllocError> {
        ListReadings::make(alloc, &self.nows, &self.loads)
    }

    /// What a call reads as commands, from standard input or a file.
    pub fn inputs(&self, alloc: Global) -> Result<MemoryInputs, AllocError> {
        let file = if self.is_file {
            Some(self.input.as_slice())
        } else {
            None
        };
        MemoryInputs::make(alloc, &self.input, file, self.inputs_fail)
    }

    /// Standard output of a call.
    pub fn out(&self, alloc: Global) -> MemorySink {
        MemorySink::make(alloc, self.failing_out)
    }

    /// Standard error of a call.
    pub fn err(&self, alloc: Global) -> MemorySink {
        MemorySink::make(alloc, self.failing_err)
    }
}

// What each of the words says, of which there is one at least.
fn each<T: Drop, F: Fn(&[u8]) -> Result<T, Why> + Drop>(
    alloc: Global,
    words: &[Vec<u8>],
    said: F,
) -> Result<Vec<T>, Why>
    requires { F.IsAlwaysCallable said }
    ensures { IfOk result (λ all. 0 < vec_len all) }
{
    let [first, rest @ ..] = words else {
        return Err(Why::Count);
    };
    let mut all = Vec::new(alloc);
    all.push(said(first)?).map_err(|_| Why::Memory)?;
    for word in rest {
        all.push(said(word)?).map_err(|_| Why::Memory)?;
    }
    Ok(all)
}
