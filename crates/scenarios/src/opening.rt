//! The directory and the plan with which a scenario begins.
ghost use Rattle.std.specs.Prelude.{IfOk};
ghost use Rattle.host_calls.specs.Session.{IsOutside};
ghost use Rattle.memory_host.specs.Host.{memory_session};

use crate::Why;
use crate::values::{name, number_word, one, two};
use host_calls::{Ending, Name};
use memory_host::{ChildPlan, Failing, Files, MemoryHost, Part, Plan};
use std::alloc::{AllocError, Global};
use std::collections::BTreeMap;

/// The files at first, and what is planned to fail.
#[derive(Drop)]
pub struct Opening {
    files: BTreeMap<Name, Vec<u8>>,
    plan: Plan,
}

/// What a line of the opening sets.
#[derive(Clone, Copy)]
pub enum OpeningPart {
    File,
    Absent,
    Child,
    FailingCall,
    TakenCall,
    FailingStart,
    Fuse,
}

/// The words of its lines.
pub static PARTS: [(&str, OpeningPart); 7] = [
    ("file", OpeningPart::File),
    ("absent", OpeningPart::Absent),
    ("child", OpeningPart::Child),
    ("failing-call", OpeningPart::FailingCall),
    ("taken-call", OpeningPart::TakenCall),
    ("failing-start", OpeningPart::FailingStart),
    ("fuse", OpeningPart::Fuse),
];

impl Opening {
    /// An empty list of users who may not use `at`, and no plan.
    pub fn new(alloc: Global) -> Result<Opening, Why> {
        let mut files = BTreeMap::new(alloc);
        files
            .insert(name(b"at.deny")?, Vec::new(alloc))
            .map_err(|_| Why::Memory)?;
        Ok(Opening {
            files,
            plan: Plan::quiet(alloc),
        })
    }

    /// Takes a line of the opening, without its first word.
    pub fn take(&mut self, alloc: Global, part: OpeningPart, rest: &[Vec<u8>]) -> Result<(), Why> {
        match part {
            OpeningPart::File => self.put_file(alloc, rest),
            OpeningPart::Absent => self.take_away(rest),
            OpeningPart::Child => self.add_child(alloc, rest),
            OpeningPart::FailingCall => self.add_failing(alloc, rest),
            OpeningPart::TakenCall => self.add_taken(alloc, rest),
            OpeningPart::FailingStart => self.add_failing_start(alloc, rest),
            OpeningPart::Fuse => self.set_fuse(rest),
        }
    }

    fn put_file(&mut self, alloc: Global, rest: &[Vec<u8>]) -> Result<(), Why> {
        let (called, text) = two(rest)?;
        let bytes = Vec::from_slice(alloc, text)?;
        match self.files.insert(name(called)?, bytes) {
            Ok(_) => Ok(()),
            Err(_) => Err(Why::Memory),
        }
    }

    fn take_away(&mut self, rest: &[Vec<u8>]) -> Result<(), Why> {
        let called = name(one(rest)?)?;
        drop(self.files.remove(&called));
        Ok(())
    }

    fn add_child(&mut self, alloc: Global, rest: &[Vec<u8>]) -> Result<(), Why> {
        let [asks, how, code] = rest else {
            return Err(Why::Count);
        };
        let asks = number_word(asks)?;
        let code = number_word(code)?;
        let ending = match how.as_slice() {
            b"exit" => Ending::Exit(code),
            b"signal" => Ending::Signal(code),
            _ => return Err(Why::NoSuchLine),
        };
        Ok(self.plan.children.push(alloc, ChildPlan { asks, ending })?)
    }

    fn add_failing(&mut self, alloc: Global, rest: &[Vec<u8>]) -> Result<(), Why> {
        let (call, part) = two(rest)?;
        let part = match part {
            b"nothing" => Part::Nothing,
            b"all" => Part::All,
            _ => return Err(Why::NoSuchLine),
        };
        let call = number_word(call)?;
        Ok(self.plan.failing.push(alloc, Failing { call, part })?)
    }

    fn add_taken(&mut self, alloc: Global, rest: &[Vec<u8>]) -> Result<(), Why> {
        let call = number_word(one(rest)?)?;
        Ok(self.plan.taken.push(alloc, call)?)
    }

    fn add_failing_start(&mut self, alloc: Global, rest: &[Vec<u8>]) -> Result<(), Why> {
        let call = number_word(one(rest)?)?;
        Ok(self.plan.failing_starts.push(alloc, call)?)
    }

    fn set_fuse(&mut self, rest: &[Vec<u8>]) -> Result<(), Why> {
        self.plan.fuse = Some(number_word(one(rest)?)?);
        Ok(())
    }

    /// The host that begins so.
    pub fn host(self, alloc: Global) -> Result<MemoryHost, AllocError>
        ensures { IfOk result (λ host. IsOutside (memory_session host)) }
    {
        let mut files = Files::new(alloc);
        for (name, bytes) in self.files.iter() {
            files.put(alloc, *name, bytes)?;
        }
        let Opening { files: _, plan } = self;
        MemoryHost::make(alloc, files, plan)
    }
}
