//! A witness who keeps what a directory holds.
ghost use Rattle.std.specs.Prelude.{◌≡◌, true, take, drop, IfOk};
ghost use Rattle.real_tests.specs.Kept.{kept_world};

use crate::asked::agrees_with_all;
use crate::step::Step;
use crate::tally::Tally;
use host_calls::{Asked, Child, Ending, EnterFault, Host, HostFault, Name, StartFault};
use memory_host::MemoryHost;
use std::alloc::{AllocError, Global};
use std::snapshot::Snapshot;
use witnessed_host::{Trace, Witness};

/// Knows a directory by a model of it in memory, which makes each call that the directory says went well. He disputes
/// each answer that the model does not give.
#[derive(Drop)]
pub struct Keeping {
    alloc: Global,
    steps: Trace<Step>,
    model: MemoryHost,
    asked: Vec<Asked>,
    tally: Tally,
    ghost inside: { model.is_inside ≡ true },
}

impl Keeping {
    /// Knows that the directory holds the files of this model.
    pub fn new(alloc: Global, model: MemoryHost) -> Keeping
        requires { model.is_inside ≡ true }
    {
        Keeping {
            alloc,
            steps: Trace::new(),
            model,
            asked: Vec::new(alloc),
            tally: Tally {
                compared: 0,
                disputes: 0,
            },
        }
    }

    /// How many answers were compared, and how many of them disputed.
    pub fn tally(&self) -> Tally
        ensures { result ≡ self.now.tally }
    {
        self.tally
    }
}

impl Witness for Keeping {
    ghost knows = { true };

    ghost alone = { true };

    ghost world = { λ own. kept_world own.model own.steps.items own.asked.items };

    fn entered(&mut self, answer: Result<(), EnterFault>) -> Result<(), EnterFault> {
        answer
    }

    fn left(&mut self) {}

    fn listed(&mut self, answer: Result<Vec<Name>, HostFault>) -> Result<Vec<Name>, HostFault> {
        let names = answer?;
        let agrees = match self.model.names_now(self.alloc) {
            Ok(mine) => mine.as_slice() == names.as_slice(),
            Err(_) => false,
        };
        self.tally.count(agrees);
        if agrees {
            Ok(names)
        } else {
            Err(HostFault::Failed)
        }
    }

    fn measured(&mut self, name: &Name, answer: Result<u64, HostFault>) -> Result<u64, HostFault> {
        let count = answer?;
        let agrees = match self.model.reading(name) {
            Some(mine) => mine.len() as u64 == count,
            None => false,
        };
        self.tally.count(agrees);
        if agrees {
            Ok(count)
        } else {
            Err(HostFault::Failed)
        }
    }

    fn read(
        &mut self,
        name: &Name,
        offset: u64,
        most: usize,
        answer: Result<Vec<u8>, HostFault>,
    ) -> Result<Vec<u8>, HostFault> {
        let bytes = answer?;
        let agrees = match self.model.reading(name) {
            Some(mine) => part_of(mine, offset, most) == bytes.as_slice(),
            None => false,
        };
        self.tally.count(agrees);
        if agrees {
            Ok(bytes)
        } else {
            Err(HostFault::Failed)
        }
    }

    fn created(
        &mut self,
        name: &Name,
        bytes: &[u8],
        answer: Result<(), HostFault>,
    ) -> Result<(), HostFault> {
        answer?;
        let step = Step::Changed(Snapshot::of(&self.model));
        let mine = self.model.create(self.alloc, name, bytes);
        self.steps = self.steps.and(&step);
        self.tally.judge(mine)
    }

    fn written(
        &mut self,
        name: &Name,
        offset: u64,
        bytes: &[u8],
        answer: Result<(), HostFault>,
    ) -> Result<(), HostFault> {
        answer?;
        let step = Step::Changed(Snapshot::of(&self.model));
        let mine = self.model.write(self.alloc, name, offset, bytes);
        self.steps = self.steps.and(&step);
        self.tally.judge(mine)
    }

    fn synced(&mut self, name: &Name, answer: Result<(), HostFault>) -> Result<(), HostFault> {
        answer?;
        let step = Step::Changed(Snapshot::of(&self.model));
        let mine = self.model.sync(self.alloc, name);
        self.steps = self.steps.and(&step);
        self.tally.judge(mine)
    }

    fn names_synced(&mut self, answer: Result<(), HostFault>) -> Result<(), HostFault> {
        answer?;
        let step = Step::Changed(Snapshot::of(&self.model));
        let mine = self.model.sync_names(self.alloc);
        self.steps = self.steps.and(&step);
        self.tally.judge(mine)
    }

    fn settled(&mut self, answer: Result<(), HostFault>) -> Result<(), HostFault> {
        answer?;
        let step = Step::Changed(Snapshot::of(&self.model));
        let mine = self.model.settle(self.alloc);
        self.steps = self.steps.and(&step);
        self.tally.judge(mine)
    }

    fn renamed(
        &mut self,
        from: &Name,
        to: &Name,
        answer: Result<(), HostFault>,
    ) -> Result<(), HostFault> {
        answer?;
        let step = Step::Changed(Snapshot::of(&self.model));
        let mine = self.model.rename(self.alloc, from, to);
        self.steps = self.steps.and(&step);
        self.tally.judge(mine)
    }

    fn removed(&mut self, name: &Name, answer: Result<(), HostFault>) -> Result<(), HostFault> {
        answer?;
        let step = Step::Changed(Snapshot::of(&self.model));
        let mine = self.model.remove(self.alloc, name);
        self.steps = self.steps.and(&step);
        self.tally.judge(mine)
    }

    fn started(&mut self, number: u32, name: &Name, nice: u8, answer: &Result<Child, StartFault>) {
        if let Err(StartFault::Memory) = answer {
            return;
        }
        let model = Snapshot::of(&self.model);
        let step = Step::HandedOver(model, number, *name, nice, answer.is_ok());
        self.steps = self.steps.and(&step);
    }

    fn asked(
        &mut self,
        child: &Child,
        answer: Result<Option<Ending>, AllocError>,
    ) -> Result<Option<Ending>, AllocError> {
        let ending = answer?;
        let agrees = agrees_with_all(&self.asked, *child, ending);
        self.tally.count(agrees);
        if !agrees {
            return Err(AllocError);
        }
        self.asked.push(Asked {
            child: *child,
            answer: ending,
        })?;
        Ok(ending)
    }
}

// At most `most` bytes from an offset on.
fn part_of(bytes: &[u8], offset: u64, most: usize) -> &[u8]
    ensures { result.now ≡ take most (drop offset bytes.now) }
{
    if offset >= bytes.len() as u64 {
        return &[];
    }
    let rest = &bytes[offset as usize..];
    if most >= rest.len() {
        return rest;
    }
    &rest[..most]
}
